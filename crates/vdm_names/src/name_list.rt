// The list of names, in order, and the number of each by its text.

ghost use Rattle.std.specs.Prelude.{◌≡◌, ◌<◌, ◌^◌, List, [], ◌∷◌, ◌++◌, false, length, slice_get, bytes_eq, option_copied, IfOk, IsOk, IsTrue, OnErr, OnOk};
ghost use Rattle.std.specs.List.{list_any, IsDistinct};
ghost use Rattle.vdm_kinds.specs.NameList.{built_in_names, with_name, number_in};

use std::alloc::Global;
use std::collections::HashMap;
use std::marker::Model;
use vdm_kinds::{Name, OutOfMemory};

/// The list of names: texts, each once. A name is the place of its text in the list.
#[derive(Drop)]
pub struct Names {
    texts: Vec<String>,
    numbers: HashMap<String, u32>,
}

impl Model for Names {
    ghost use Rattle.std.specs.Prelude.{ℕ, List, map};
    ghost use Rattle.std.specs.String.{string_bytes};
    ghost use Rattle.vdm_names.specs.Numbering.{IsNumbered};

    ghost Value = { List (List ℕ) };

    ghost view = { λ n. map string_bytes n.texts.items };

    ghost invariant = { λ n. IsNumbered n.numbers (map string_bytes n.texts.items) };
}

impl Names {
    /// The list of the built-in names `IO`, `print` and `println`.
    pub fn new(alloc: Global) -> Result<Names, OutOfMemory>
        ensures { IfOk result (λ names. names ≡ built_in_names) }
    {
        let mut names = Names {
            texts: Vec::new(alloc),
            numbers: HashMap::new(alloc),
        };
        names.name("IO")?;
        names.name("print")?;
        names.name("println")?;
        Ok(names)
    }

    /// The name of a text, which is added last where it is new. A text that is there needs no memory, and a refusal changes nothing.
    pub fn name(&mut self, text: &str) -> Result<Name, OutOfMemory>
        requires { length self.old < 2 ^ 32 }
        ensures name { IfOk result (λ n. n.0 ≡ number_in self.old text.now) }
        ensures names { OnOk result (self.new ≡ with_name self.old text.now) }
        ensures refused { OnErr result (self.new ≡ self.old) }
        ensures there { IsTrue (list_any (bytes_eq text.now) self.old) → IsOk result }
    {
        // A text that is there already needs no memory.
        if let Some(number) = self.numbers.get(text) {
            return Ok(Name(*number));
        }
        self.push(text)
    }

    // Puts a new text last.
    fn push(&mut self, text: &str) -> Result<Name, OutOfMemory>
        requires room { length self.old < 2 ^ 32 }
        requires new { list_any (bytes_eq text.now) self.old ≡ false }
        ensures name { IfOk result (λ n. n.0 ≡ length self.old) }
        ensures names { OnOk result (self.new ≡ self.old ++ text.now ∷ []) }
        ensures refused { OnErr result (self.new ≡ self.old) }
    {
        let number = self.len() as u32;
        let alloc = *self.texts.allocator();
        let kept = String::from_str(alloc, text)?;
        let key = String::from_str(alloc, text)?;
        // With the room made first nothing can fail between the number and the text.
        self.texts.reserve(1)?;
        self.numbers.insert(key, number)?;
        self.texts.push_reserved(kept);
        Ok(Name(number))
    }

    /// The text of a name, where the list is long enough to have one.
    pub fn text(&self, name: Name) -> Option<&str>
        ensures { option_copied result ≡ slice_get self.now name.0 }
    {
        let text = self.texts.as_slice().get(name.0 as usize)?;
        Some(text.as_str())
    }

    /// How many names there are. No text stands twice.
    pub fn len(&self) -> usize
        ensures len { result ≡ length self.now }
        ensures distinct { IsDistinct bytes_eq self.now }
    {
        self.texts.len()
    }
}
