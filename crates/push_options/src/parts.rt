//! The parts in which the options of a push reply go.

ghost use Rattle.std.specs.Prelude.{◌≡◌, ◌≤◌, ◌∷◌, [], ◌++◌, length, All, IfOk, OnOk, if◌then◌else◌};
ghost use Rattle.push_options.specs.Parts.{opening, more_mark, last_mark, with_options, parts_from, reply_parts};

use std::alloc::Global;
use std::marker::Model;
use std::mem;
use vpn_base::{NoMemory, Text, TextList};

// How a part begins.
const OPENING: &[u8] = b"PUSH_REPLY";

// How a part ends behind which another one comes, and how the last of several ends.
const MORE: &[u8] = b",push-continuation 2";

const LAST: &[u8] = b",push-continuation 1";

// The greatest length of a part, in bytes: of one with a mark without it, and of one alone.
const ROOM: usize = 1004;

const WHOLE: usize = 1024;

fn add_option(part: &mut Vec<u8>, option: &[u8]) -> Result<(), NoMemory>
    ensures { OnOk result (part.new.items ≡ part.old.items ++ 44 ∷ option.now) }
{
    part.push(b',')?;
    part.extend_from_slice(option)?;
    Ok(())
}

#[tactic(auto, unfolding(crate::specs::Parts::opening))]
fn begin(alloc: Global) -> Result<Vec<u8>, NoMemory>
    ensures { IfOk result (λ v. v.items ≡ opening) }
{
    Ok(Vec::from_slice(alloc, OPENING)?)
}

// The text of all options in one part.
fn whole(alloc: Global, options: &[Text]) -> Result<Vec<u8>, NoMemory>
    ensures { IfOk result (λ v. v.items ≡ with_options opening options.now) }
{
    let mut part = begin(alloc)?;
    for option in options {
        add_option(&mut part, option.as_slice())?;
    }
    Ok(part)
}

// The parts that are done, and the beginning of the next one.
#[derive(Drop)]
struct Parts {
    done: TextList,
    part: Vec<u8>,
}

impl Model for Parts {
    ghost use Rattle.push_options.specs.internal.Writing.{Written};

    ghost Value = { Written };

    ghost view = { λ p. record { done = p.done; part = p.part.items } };
}

impl Parts {
    ghost use Rattle.push_options.specs.internal.Writing.{Written, with_option};

    fn new(alloc: Global) -> Result<Parts, NoMemory>
        ensures { IfOk result (λ p. p ≡ record { done = []; part = opening }) }
    {
        Ok(Parts {
            done: TextList::new(alloc),
            part: begin(alloc)?,
        })
    }

    // The next option.
    fn add(&mut self, alloc: Global, option: &[u8]) -> Result<(), NoMemory>
        ensures { OnOk result (self.new ≡ with_option self.old option.now) }
    {
        if self.part.len() + 1 + option.len() <= ROOM {
            return add_option(&mut self.part, option);
        }
        let mut next = begin(alloc)?;
        add_option(&mut next, option)?;
        let mut part = mem::replace(&mut self.part, next);
        end_part(&mut part, true)?;
        self.done.add(Text::of(part))
    }

    fn finish(self) -> Result<TextList, NoMemory>
        ensures { IfOk result (λ l. l ≡ self.done ++ (self.part ++ last_mark) ∷ []) }
    {
        let Parts { mut done, mut part } = self;
        end_part(&mut part, false)?;
        done.add(Text::of(part))?;
        Ok(done)
    }
}

#[tactic(auto, unfolding(crate::specs::Parts::more_mark, crate::specs::Parts::last_mark))]
fn end_part(part: &mut Vec<u8>, more: bool) -> Result<(), NoMemory>
    ensures { OnOk result (part.new.items ≡ part.old.items ++ (if more then more_mark else last_mark)) }
{
    if more {
        part.extend_from_slice(MORE)?;
        return Ok(());
    }
    part.extend_from_slice(LAST)?;
    Ok(())
}

fn parts_of(alloc: Global, options: &[Text]) -> Result<TextList, NoMemory>
    ensures { IfOk result (λ l. l ≡ parts_from opening options.now) }
{
    let mut parts = Parts::new(alloc)?;
    for option in options {
        parts.add(alloc, option.as_slice())?;
    }
    parts.finish()
}

#[tactic(auto, unfolding(crate::specs::Parts::reply_parts))]
fn parts_in(alloc: Global, options: &[Text]) -> Result<TextList, NoMemory>
    ensures { IfOk result (λ l. l ≡ reply_parts options.now) }
{
    let text = whole(alloc, options)?;
    if text.len() <= WHOLE {
        let mut list = TextList::new(alloc);
        list.add(Text::of(text))?;
        return Ok(list);
    }
    parts_of(alloc, options)
}

/// The parts in which the options go: `PUSH_REPLY` and, behind a comma each, the options. All of
/// them go in one part where that has at most 1,024 bytes. Else each part takes as many next
/// options as fit into 1,004 bytes; the last one ends in `,push-continuation 1`, and the others in
/// `,push-continuation 2`. No part has more than 1,024 bytes where no option has more than 255.
pub fn reply(alloc: Global, options: &TextList) -> Result<TextList, NoMemory>
    ensures parts { IfOk result (λ l. l ≡ reply_parts options.now) }
    ensures short { IfOk result (λ l. All (λ option. length option ≤ 255) options.now → All (λ part. length part ≤ 1024) l) }
{
    let list = parts_in(alloc, options.as_slice())?;
    Ok(list)
}
