//! Directives as they stand in a file.

ghost use Rattle.std.specs.Prelude.{◌≡◌, ◌<◌, length, slice_get, None, Some, MatchOption};
ghost use Rattle.std.specs.Option.{option_copied};
ghost use Rattle.config_directives.specs.Items.{arguments_of, name_of, first_named, is_given, items_of};
ghost use Rattle.vpn_base.specs.WordCount.{are_none, one_of, two_of, three_of};

use vpn_base::{Bytes, Text, TextList};

/// What a directive says: the words of its line, or the block that begins there.
#[derive(Drop)]
pub enum Item {
    /// The words of a line, of which the first one names the directive.
    Words(TextList),
    /// A block.
    Block {
        /// The name between the angle brackets of its first line.
        name: Text,
        /// Its lines, each ended by a line feed, without the two outer ones. None where nothing
        /// ends the block.
        bytes: Option<Bytes>,
    },
}

/// A directive with the number of its line, or of its block's first line, counted from 1.
#[derive(Drop)]
pub struct Directive {
    /// The number of the line.
    pub line: u32,
    /// What the directive says.
    pub item: Item,
}

impl Item {
    /// The first word of the line, or the name of the block.
    pub fn name(&self) -> &[u8]
        ensures { result.now ≡ name_of self.now }
    {
        match self {
            Item::Words(words) => match words.item(0) {
                None => &[],
                Some(name) => name.as_slice(),
            },
            Item::Block { name, .. } => name.as_slice(),
        }
    }

    // How many words stand behind the name.
    fn argument_count(&self) -> usize
        ensures { result ≡ length (arguments_of self.now) }
    {
        match self {
            Item::Words(words) => words.count().saturating_sub(1),
            Item::Block { .. } => 0,
        }
    }

    // A word behind the name, counted from 0.
    fn argument(&self, i: usize) -> Option<&[u8]>
        requires { i < 3 }
        ensures { option_copied result ≡ slice_get (arguments_of self.now) i }
    {
        match self {
            Item::Words(words) => match words.item(i + 1) {
                None => None,
                Some(word) => Some(word.as_slice()),
            },
            Item::Block { .. } => None,
        }
    }

    /// Whether no word stands behind the name.
    pub fn has_no_argument(&self) -> bool
        ensures { result ≡ are_none (arguments_of self.now) }
    {
        self.argument_count() == 0
    }

    /// The word behind the name, if there is exactly one.
    pub fn one(&self) -> Option<&[u8]>
        ensures { option_copied result ≡ one_of (arguments_of self.now) }
    {
        if self.argument_count() == 1 {
            self.argument(0)
        } else {
            None
        }
    }

    /// The words behind the name, if there are exactly two.
    pub fn two(&self) -> Option<(&[u8], &[u8])>
        ensures { MatchOption result (two_of (arguments_of self.now) ≡ None)
            (λ words. two_of (arguments_of self.now) ≡ Some (words.0.now, words.1.now)) }
    {
        if self.argument_count() != 2 {
            return None;
        }
        match (self.argument(0), self.argument(1)) {
            (Some(a), Some(b)) => Some((a, b)),
            _ => None,
        }
    }

    /// The words behind the name, if there are exactly three.
    pub fn three(&self) -> Option<(&[u8], &[u8], &[u8])>
        ensures { MatchOption result (three_of (arguments_of self.now) ≡ None)
            (λ words. three_of (arguments_of self.now) ≡ Some (words.0.now, words.1.now, words.2.now)) }
    {
        if self.argument_count() != 3 {
            return None;
        }
        match (self.argument(0), self.argument(1), self.argument(2)) {
            (Some(a), Some(b), Some(c)) => Some((a, b, c)),
            _ => None,
        }
    }
}

/// The first directive of a name.
pub fn first_named<'a>(directives: &'a [Directive], name: &[u8]) -> Option<&'a Item>
    ensures { option_copied result ≡ first_named name.now (items_of directives.now) }
{
    for directive in directives {
        if directive.item.name() == name {
            return Some(&directive.item);
        }
    }
    None
}

/// Whether there is a directive of a name.
pub fn is_given(directives: &[Directive], name: &[u8]) -> bool
    ensures { result ≡ is_given name.now (items_of directives.now) }
{
    first_named(directives, name).is_some()
}
