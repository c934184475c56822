//! Applications, instance ids, and the keys of leases.
ghost use Rattle.std.specs.Prelude.{ℕ, List, false, ◌≡◌, ◌<◌, ◌≤◌, ◌↔◌, ◌⊎◌, refl, [], length, string_bytes, nat_eq, IfOk, IfErr, IsTrue};
ghost use Rattle.std.specs.Ordering.{nat_cmp, as_partial_cmp};
ghost use Rattle.std.specs.Hash as fed;
ghost use Rattle.std.specs.Cmp.Rules.{hashing};
ghost use Rattle.std.proofs.Common.{rules};
ghost use Rattle.std.specs.Str.{str_to_ascii_uppercase};
ghost use Rattle.std.specs.Cmp.{partial_equiv_from_equiv};
ghost use Rattle.std.specs.Cmp.Lexicographic.{pointwise, slice_cmp, nat_list_eq_equiv, nat_list_cmp_total, texts_ties, texts_po};
ghost use Rattle.eu_base.specs.Name.{bytes_of};

use crate::LONGEST_NAME;
use crate::faults::Fault;
use crate::items::Items;
use arrayvec::ArrayString;
use std::alloc::{AllocError, Global};
use std::cmp::Ordering;
use std::hash::{Hash, Hasher};
use std::marker::Model;

/// The most bytes of a name that wants no memory of its own.
const SHORT_NAME: usize = 40;

/// How the text of a name is kept.
#[derive(Debug, Drop)]
enum Text {
    /// In the value.
    Short(ArrayString<SHORT_NAME>),
    /// On the heap.
    Long(String),
}

impl Text {
    /// A text as it is given. Takes memory for a long one alone.
    fn new(alloc: Global, text: &str) -> Result<Text, AllocError>
        ensures { IfOk result (λ t. bytes_of t ≡ text.now) }
    {
        match ArrayString::from(text) {
            Ok(short) => Ok(Text::Short(short)),
            Err(_) => Ok(Text::Long(String::from_str(alloc, text)?)),
        }
    }

    /// A text in capitals: its ASCII letters are. Takes memory for a long one, or where a letter is small.
    fn in_capitals(alloc: Global, text: &str) -> Result<Text, AllocError>
        ensures { IfOk result (λ t. bytes_of t ≡ str_to_ascii_uppercase text.now) }
    {
        if has_small_letter(text.as_bytes()) {
            return Text::new(alloc, &text.to_ascii_uppercase(alloc)?);
        }
        Text::new(alloc, text)
    }

    fn as_str(&self) -> &str
        ensures { result.now ≡ bytes_of self.now }
    {
        match self {
            Text::Short(text) => text.as_str(),
            Text::Long(text) => text.as_str(),
        }
    }

    /// The same text once more. Takes memory for a long one alone.
    fn copy(&self, alloc: Global) -> Result<Text, AllocError>
        ensures { IfOk result (λ t. bytes_of t ≡ bytes_of self.now) }
    {
        match self {
            Text::Short(text) => Ok(Text::Short(*text)),
            Text::Long(text) => Ok(Text::Long(String::from_str(alloc, text.as_str())?)),
        }
    }
}

/// Whether a small ASCII letter is among the bytes of a text.
fn has_small_letter(bytes: &[u8]) -> bool
    ensures { result ≡ false → str_to_ascii_uppercase bytes.now ≡ bytes.now }
{
    for byte in bytes {
        if byte.is_ascii_lowercase() {
            return true;
        }
    }
    false
}

/// A name: 1 to 255 bytes of UTF-8, ordered by its bytes. Contracts see the bytes.
#[derive(Debug)]
struct Name {
    text: Text,
}

impl Model for Name {
    ghost use Rattle.std.specs.Prelude.{ℕ, ◌<◌, ◌≤◌, List, length};
    ghost use Rattle.eu_base.specs.Name.{bytes_of};
    ghost use Rattle.eu_base.specs.Limits.{longest_name};

    ghost Value = { List ℕ };

    ghost view = { λ n. bytes_of n.text };

    ghost invariant = { λ n. (0 < length (bytes_of n.text)) × (length (bytes_of n.text) ≤ longest_name) };
}

impl Name {
    fn as_str(&self) -> &str
        ensures value { result.now ≡ self.now }
        ensures filled { 0 < length self.now }
        ensures short { length self.now ≤ LONGEST_NAME }
    {
        self.text.as_str()
    }

    fn copy(&self, alloc: Global) -> Result<Name, AllocError>
        ensures { IfOk result (λ n. n ≡ self.now) }
    {
        let text = self.text.copy(alloc)?;
        Ok(Name { text })
    }
}

/// By a call, so that the proof of who lets a name go needn't ask how its text is kept.
impl Drop for Name {
    fn drop(self) {
        let Name { text: _text } = self;
    }
}

impl PartialEq for Name {
    ghost eq = { pointwise nat_eq };

    ghost laws = { partial_equiv_from_equiv nat_list_eq_equiv };

    fn eq(&self, other: &Name) -> bool {
        self.as_str() == other.as_str()
    }
}

impl Eq for Name {
    ghost laws = { nat_list_eq_equiv };
}

impl PartialOrd for Name {
    ghost partial_cmp = { as_partial_cmp (slice_cmp nat_cmp) };

    ghost laws = { texts_po };

    fn partial_cmp(&self, other: &Name) -> Option<Ordering> {
        Some(self.cmp(other))
    }
}

impl Ord for Name {
    ghost cmp = { slice_cmp nat_cmp };

    ghost total = { nat_list_cmp_total };

    ghost matches_partial_cmp = { λ x y. refl };

    ghost matches_eq = { texts_ties };

    fn cmp(&self, other: &Name) -> Ordering {
        self.as_str().cmp(other.as_str())
    }
}

impl Hash for Name {
    ghost hash_input = { fed.str };

    ghost respects_eq = { Prim.search (hashing, rules) };

    #[inline(always)]
    fn hash<H: Hasher>(&self, state: &mut H) {
        self.as_str().hash(state);
    }
}

/// Judges whether a text may be a name: `Empty` where it has no byte, `TooLong` where it has more than 255.
fn judge(text: &str) -> Result<(), Fault>
    ensures empty { (result ≡ Err Fault.Empty) ↔ (text.now ≡ []) }
    ensures too_long { (result ≡ Err Fault.TooLong) ↔ (LONGEST_NAME < length text.now) }
    ensures no_other { IfErr result (λ f. (f ≡ Fault.Empty) ⊎ (f ≡ Fault.TooLong)) }
{
    if text.is_empty() {
        return Err(Fault::Empty);
    }
    if text.len() > LONGEST_NAME {
        return Err(Fault::TooLong);
    }
    Ok(())
}

/// The name of an application: 1 to 255 bytes of UTF-8, its ASCII letters in capitals. Contracts see the bytes.
#[derive(Debug, Drop, PartialEq, Eq, PartialOrd, Ord, Hash)]
pub struct App {
    name: Name,
}

impl Model for App {
    ghost Value = { List ℕ };

    ghost view = { λ a. a.name };

    ghost inverse = { λ n. record { name = n } };
}

impl App {
    /// The application of that name, with ASCII letters upper-cased.
    ///
    /// `Empty` where the name has no byte, `TooLong` where it has more than 255, `OutOfMemory`.
    #[inline(always)]
    pub fn read(alloc: Global, text: &str) -> Result<App, Fault>
        ensures value { IfOk result (λ a. a ≡ str_to_ascii_uppercase text.now) }
        ensures empty { (result ≡ Err Fault.Empty) ↔ (text.now ≡ []) }
        ensures too_long { (result ≡ Err Fault.TooLong) ↔ (LONGEST_NAME < length text.now) }
        ensures no_other { IfErr result (λ f. (f ≡ Fault.Empty) ⊎ ((f ≡ Fault.TooLong) ⊎ (f ≡ Fault.OutOfMemory))) }
    {
        judge(text)?;
        let text = Text::in_capitals(alloc, text)?;
        let name = Name { text };
        Ok(App { name })
    }

    /// The name.
    pub fn as_str(&self) -> &str
        ensures value { result.now ≡ self.now }
        ensures filled { 0 < length self.now }
        ensures short { length self.now ≤ LONGEST_NAME }
    {
        self.name.as_str()
    }

    /// The same name once more. `AllocError` where no memory is left.
    pub fn copy(&self, alloc: Global) -> Result<App, AllocError>
        ensures { IfOk result (λ a. a ≡ self.now) }
    {
        let name = self.name.copy(alloc)?;
        Ok(App { name })
    }
}

/// The id of an instance: 1 to 255 bytes of UTF-8, as given. Contracts see the bytes.
#[derive(Debug, Drop, PartialEq, Eq, PartialOrd, Ord, Hash)]
pub struct Id {
    id: Name,
}

impl Model for Id {
    ghost Value = { List ℕ };

    ghost view = { λ i. i.id };

    ghost inverse = { λ n. record { id = n } };
}

impl Id {
    /// The id of that name.
    ///
    /// `Empty` where the name has no byte, `TooLong` where it has more than 255, `OutOfMemory`.
    pub fn read(alloc: Global, text: &str) -> Result<Id, Fault>
        ensures value { IfOk result (λ i. i ≡ text.now) }
        ensures empty { (result ≡ Err Fault.Empty) ↔ (text.now ≡ []) }
        ensures too_long { (result ≡ Err Fault.TooLong) ↔ (LONGEST_NAME < length text.now) }
        ensures no_other { IfErr result (λ f. (f ≡ Fault.Empty) ⊎ ((f ≡ Fault.TooLong) ⊎ (f ≡ Fault.OutOfMemory))) }
    {
        judge(text)?;
        let text = Text::new(alloc, text)?;
        Ok(Id { id: Name { text } })
    }

    /// The name.
    pub fn as_str(&self) -> &str
        ensures value { result.now ≡ self.now }
        ensures filled { 0 < length self.now }
        ensures short { length self.now ≤ LONGEST_NAME }
    {
        self.id.as_str()
    }

    /// The same name once more. `AllocError` where no memory is left.
    pub fn copy(&self, alloc: Global) -> Result<Id, AllocError>
        ensures { IfOk result (λ i. i ≡ self.now) }
    {
        let id = self.id.copy(alloc)?;
        Ok(Id { id })
    }
}

/// The key of a lease: its application and its instance's id. Keys are ordered by application, then id, by bytes.
#[derive(Debug, Drop, PartialEq, Eq, PartialOrd, Ord, Hash)]
pub struct Key {
    /// The application.
    pub app: App,
    /// The instance's id.
    pub id: Id,
}

impl Key {
    /// The same key once more. `AllocError` where no memory is left.
    pub fn copy(&self, alloc: Global) -> Result<Key, AllocError>
        ensures { IfOk result (λ k. k ≡ self.now) }
    {
        let app = self.app.copy(alloc)?;
        let id = self.id.copy(alloc)?;
        Ok(Key { app, id })
    }
}

/// Keys, in their order.
pub type Keys = Items<Key>;

impl Items<Key> {
    /// Whether both are equal in every key. Takes no memory.
    pub fn same(&self, other: &Items<Key>) -> bool
        ensures { IsTrue result ↔ (self.now ≡ other.now) }
    {
        self.as_slice() == other.as_slice()
    }

    /// The same keys once more. `AllocError` where no memory is left.
    pub fn copy(&self, alloc: Global) -> Result<Items<Key>, AllocError>
        ensures { IfOk result (λ k. k ≡ self.now) }
    {
        let mut keys = Vec::with_capacity(alloc, self.as_slice().len())?;
        for key in self.as_slice() {
            keys.push(key.copy(alloc)?)?;
        }
        Ok(Items::new(keys))
    }
}
