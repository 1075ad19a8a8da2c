//! The program: the words after its name, a desk over real files, and the status of the run as its exit code.
#![tactic(auto)]

use std::process::ExitCode;
use text_io::FileDesk;
use translate_cmd::{Status, open_closed_streams, program_words, run};

/// Runs the command that the words after the program's name ask for. The exit code is that of the run's status; without
/// memory for the words it is that of `Memory`, and where a word is not UTF-8 that of `Usage`. Want of memory is told on
/// the standard error, as far as that can be written.
fn main(rt: HostRuntime) -> ExitCode {
    open_closed_streams(&rt);
    let alloc = rt.alloc();
    let status = match program_words(&rt) {
        Ok(words) => match rt.clone() {
            Ok(host) => run(alloc, &mut FileDesk::new(host, words)),
            Err(_) => Status::Memory,
        },
        Err(status) => status,
    };
    if status == Status::Memory {
        let _ = rt.eprintln("lib2sim: out of memory");
    }
    ExitCode::from(status.code())
}
