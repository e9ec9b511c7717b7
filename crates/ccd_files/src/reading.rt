//! Client files read.

ghost use Rattle.std.specs.Prelude.{◌≡◌, OnOk, IfErr, Ok, Err};
ghost use Rattle.vpn_base.specs.Answers.{Answers};
ghost use Rattle.ccd_files.specs.ClientFile.{ccd, line_added, words_added, faulted, added_from};
ghost use Rattle.ccd_files.specs.internal.Refusals.{Refused, IsFaultOf};
ghost use Rattle.ccd_files.specs.Directives.{name_of, directive_of};

use crate::client_file::Ccd;
use crate::directives::{directive_of, name_of};
use std::alloc::Global;
use vpn_base::{Or, Text, TextList, next_line};
use vpn_text::{ConfigFault, ConfigKind, is_over, read_config_line};

fn add_directive(
    alloc: Global,
    ccd: &mut Ccd,
    word: &[u8],
    words: &[Text],
) -> Result<(), Or<ConfigKind>>
    ensures ok { OnOk result (added_from ccd.old (directive_of (name_of word.now) words.now) ≡ Ok ccd.new) }
    ensures err { IfErr result (λ e. Refused e (added_from ccd.old (directive_of (name_of word.now) words.now))) }
{
    match directive_of(alloc, name_of(word), words) {
        Ok(directive) => ccd.add(directive),
        Err(e) => Err(e),
    }
}

// A fault in the line of this number, whose first word this is.
fn fault_of(alloc: Global, number: u32, word: &[u8], e: Or<ConfigKind>) -> Or<ConfigFault>
    ensures { IsFaultOf number word.now e result }
{
    match e {
        Or::Memory => Or::Memory,
        Or::Why(kind) => match Text::copy(alloc, word) {
            Ok(word) => Or::Why(ConfigFault {
                line: number,
                kind,
                word,
            }),
            Err(_) => Or::Memory,
        },
    }
}

fn add_words(
    alloc: Global,
    ccd: &mut Ccd,
    number: u32,
    words: &[Text],
) -> Result<(), Or<ConfigFault>>
    ensures ok { OnOk result (words_added ccd.old number (Ok words.now) ≡ Ok ccd.new) }
    ensures err { IfErr result (λ e. Refused e (words_added ccd.old number (Ok words.now))) }
{
    match words {
        [] => Ok(()),
        [word, words @ ..] => match add_directive(alloc, ccd, word.as_slice(), words) {
            Ok(()) => Ok(()),
            Err(e) => Err(fault_of(alloc, number, word.as_slice(), e)),
        },
    }
}

#[tactic(auto, unfolding(crate::specs::ClientFile::line_added))]
fn add_line(
    alloc: Global,
    ccd: &mut Ccd,
    number: u32,
    line: &[u8],
    passes: bool,
) -> Result<(), Or<ConfigFault>>
    ensures ok { OnOk result (line_added ccd.old number line.now passes ≡ Ok ccd.new) }
    ensures err { IfErr result (λ e. Refused e (line_added ccd.old number line.now passes)) }
{
    match read_config_line(alloc, number, line, passes) {
        Ok(words) => add_words(alloc, ccd, number, words.as_slice()),
        Err(e) => Err(e),
    }
}

/// What a client's file says: `ifconfig-push IP MASK`, `iroute NET [MASK]` with the mask of one
/// address where it has none, `push TEXT`, `push-reset` and `disable`. `iroute` and `push` may
/// repeat.
///
/// The fault is that of the first faulty line: `Long` for more than 1,024 bytes, or where the file
/// has more than 65,536 with this line; then `Control`, `Quote` and `Escape`, all with an empty
/// word; `Unknown` for any other directive; `Arguments` for arguments of another number or form, a
/// network with bits past its mask, or a text that can't be pushed; `Repeated` for any other
/// directive that stood before.
#[tactic(auto, unfolding(crate::specs::ClientFile::ccd))]
pub fn read_ccd(alloc: Global, text: &[u8]) -> Result<Ccd, Or<ConfigFault>>
    ensures { Answers result (ccd text.now) }
{
    let mut ccd = Ccd::new(alloc);
    let mut rest = text;
    let mut number = 0;
    let mut bytes = 0;
    'lines: while let Some((line, behind)) = next_line(rest) {
        number += 1;
        bytes += rest.len() - behind.len();
        match add_line(alloc, &mut ccd, number, line, is_over(bytes)) {
            Ok(()) => {}
            Err(e) => return Err(e),
        }
        rest = behind;
    }
    Ok(ccd)
}
