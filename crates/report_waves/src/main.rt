//! The program that draws the waves of a report of lib2sim: the words after its name, a desk over real files, and the status of
//! the run as its exit code.
#![tactic(auto)]

use std::process::ExitCode;
use text_io::FileDesk;
use wave_reports::{Status, desk_words, open_closed_streams, program_words, run};

/// Draws the waves of the report that the words after the program's name ask for. The exit code is that of the run's status;
/// without memory for the words it is that of `Memory`, and where a word is not UTF-8 that of `Usage`. Want of memory is told on
/// the standard error, as far as that can be written.
fn main(rt: HostRuntime) -> ExitCode {
    open_closed_streams(&rt);
    let alloc = rt.alloc();
    let status = match words(&rt) {
        Ok(words) => match rt.clone() {
            Ok(host) => run(alloc, &mut FileDesk::new(host, words)),
            Err(_) => Status::Memory,
        },
        Err(status) => status,
    };
    if status == Status::Memory {
        let _ = rt.eprintln("report_waves: out of memory");
    }
    ExitCode::from(status.code())
}

/// The desk's words for those after the program's name, or the status of a run that can't read them.
fn words(rt: &HostRuntime) -> Result<Vec<String>, Status> {
    desk_words(rt.alloc(), program_words(rt)?).map_err(|_| Status::Memory)
}
