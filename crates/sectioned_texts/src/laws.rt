//! Laws of texts in whose sections drivers stand: functions that do nothing, whose `ensures` holds of every text.
ghost use Rattle.sectioned_texts.specs.Laws.{ReadsAsBefore, HasGoodDrivers};

use crate::language::SectionLanguage;

/// The law that a text without sections has the models, or the fault, that it has where sections are not known.
pub fn text_without_sections_reads_as_before<L: SectionLanguage>(text: &[u8])
    ensures { ReadsAsBefore L.language text.now }
{}

/// The law that all drivers of a text may stand where they do.
pub fn drivers_may_stand<L: SectionLanguage>(text: &[u8])
    ensures { HasGoodDrivers L.language text.now }
{}
