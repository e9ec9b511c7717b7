//! Lists of texts and of prefixes, which contracts see as lists of their values.

ghost use Rattle.std.specs.Prelude.{◌≡◌, [], ◌∷◌, ◌++◌, IfOk, OnOk, OnErr, length, slice_get};
ghost use Rattle.std.specs.Option.{option_copied};

use crate::address::Prefix;
use crate::bytes::Text;
use crate::errors::NoMemory;
use std::alloc::Global;
use std::marker::Model;

/// Texts in order.
#[derive(Debug, Drop)]
pub struct TextList {
    items: Vec<Text>,
}

impl Model for TextList {
    ghost use Rattle.std.specs.Prelude.{ℕ, List};

    ghost Value = { List (List ℕ) };

    ghost view = { λ l. l.items.items };
}

impl TextList {
    /// No texts.
    pub fn new(alloc: Global) -> TextList
        ensures { result ≡ [] }
    {
        TextList {
            items: Vec::new(alloc),
        }
    }

    /// A list of copies of the texts.
    pub fn copy(&self, alloc: Global) -> Result<TextList, NoMemory>
        ensures { IfOk result (λ l. l ≡ self.now) }
    {
        let mut items = Vec::new(alloc);
        for text in &self.items {
            items.push(Text::copy(alloc, text.as_slice())?)?;
        }
        Ok(TextList { items })
    }

    /// Adds a text at the end. After want of memory the list is as before.
    pub fn add(&mut self, text: Text) -> Result<(), NoMemory>
        ensures ok { OnOk result (self.new ≡ self.old ++ text ∷ []) }
        ensures err { OnErr result (self.new ≡ self.old) }
    {
        self.items.push(text)?;
        Ok(())
    }

    /// How many texts there are.
    pub fn count(&self) -> usize
        ensures { result ≡ length self.now }
    {
        self.items.len()
    }

    /// The texts, one behind another.
    pub fn as_slice(&self) -> &[Text]
        ensures { result.now ≡ self.now }
    {
        self.items.as_slice()
    }

    /// The text at this place, from 0. It is None exactly past the end.
    pub fn item(&self, i: usize) -> Option<&Text>
        ensures { option_copied result ≡ slice_get self.now i }
    {
        self.items.get(i)
    }
}

/// Prefixes in order.
#[derive(Debug, Drop)]
pub struct RouteList {
    items: Vec<Prefix>,
}

impl Model for RouteList {
    ghost use Rattle.std.specs.Prelude.{List};
    ghost use Rattle.vpn_base.specs.Network.{Network};

    ghost Value = { List Network };

    ghost view = { λ l. l.items.items };
}

impl RouteList {
    /// No prefixes.
    pub fn new(alloc: Global) -> RouteList
        ensures { result ≡ [] }
    {
        RouteList {
            items: Vec::new(alloc),
        }
    }

    /// A list of the same prefixes.
    pub fn copy(&self, alloc: Global) -> Result<RouteList, NoMemory>
        ensures { IfOk result (λ l. l ≡ self.now) }
    {
        Ok(RouteList {
            items: Vec::from_slice(alloc, self.items.as_slice())?,
        })
    }

    /// Adds a prefix at the end. After want of memory the list is as before.
    pub fn add(&mut self, prefix: Prefix) -> Result<(), NoMemory>
        ensures ok { OnOk result (self.new ≡ self.old ++ prefix ∷ []) }
        ensures err { OnErr result (self.new ≡ self.old) }
    {
        self.items.push(prefix)?;
        Ok(())
    }

    /// How many prefixes there are.
    pub fn count(&self) -> usize
        ensures { result ≡ length self.now }
    {
        self.items.len()
    }

    /// The prefix at this place, from 0. It is None exactly past the end.
    pub fn item(&self, i: usize) -> Option<Prefix>
        ensures { result ≡ slice_get self.now i }
    {
        self.items.get(i).copied()
    }
}
