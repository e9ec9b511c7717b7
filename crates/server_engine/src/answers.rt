//! Answers for clients' files, read ahead.

ghost use Rattle.std.specs.Prelude.{IfOk};
ghost use Rattle.vpn_links.specs.declared.events.FileAnswer.TheVariants.{Held};
ghost use Rattle.server_engine.specs.Files.{Tells};

use ccd_files::{Ccd, read_ccd};
use std::alloc::Global;
use vpn_base::{NoMemory, Or};
use vpn_links::FileAnswer;
use vpn_text::ConfigFault;

/// An answer for a client's file, whose text was read.
#[derive(Drop)]
pub enum ReadAnswer {
    /// This is what the file says.
    Accepted(Ccd),
    /// Its text is refused.
    Refused(ConfigFault),
    /// There is no file of that name.
    Missing,
    /// The file could not be read.
    Failed,
}

fn read_text(alloc: Global, text: &[u8]) -> Result<ReadAnswer, NoMemory>
    ensures { IfOk result (λ r. Tells r (Held text.now)) }
{
    match read_ccd(alloc, text) {
        Ok(file) => Ok(ReadAnswer::Accepted(file)),
        Err(Or::Memory) => Err(NoMemory),
        Err(Or::Why(fault)) => Ok(ReadAnswer::Refused(fault)),
    }
}

/// Reads the text of an answer for a client's file.
pub fn read_answer(alloc: Global, answer: &FileAnswer) -> Result<ReadAnswer, NoMemory>
    ensures { IfOk result (λ r. Tells r answer.now) }
{
    match answer {
        FileAnswer::Held(text) => read_text(alloc, text.as_slice()),
        FileAnswer::Missing => Ok(ReadAnswer::Missing),
        FileAnswer::Failed => Ok(ReadAnswer::Failed),
    }
}
