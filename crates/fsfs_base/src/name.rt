// The name of a file below a repository, kept by value.
ghost use Rattle.std.specs.Prelude.{◌≡◌, ◌+◌, ◌≤◌, ◌<◌, ◌∷◌, [], ◌++◌, ◌↔◌, length, IsTrue, Some, nat_eq, refl};
ghost use Rattle.std.specs.Ordering.{nat_cmp};
ghost use Rattle.std.specs.Cmp.{on_equiv, on_total, on_po, on_per, partial_equiv_from_equiv};
ghost use Rattle.std.specs.Cmp.Lexicographic.{pointwise, slice_cmp, nat_list_eq_equiv, nat_list_cmp_total, texts_po, texts_ties};

use arrayvec::ArrayString;
use std::alloc::AllocError;
use std::cmp::Ordering;
use std::marker::Model;

/// The name of a file below a repository, as `db/revs/0/17`: at most 128 bytes, kept by value. A contract sees its bytes.
#[derive(Debug, Drop)]
pub struct Name {
    text: ArrayString<128>,
}

impl Model for Name {
    ghost use Rattle.std.specs.Prelude.{List, ℕ, length, ◌≤◌};

    ghost Value = { List ℕ };

    ghost view = { λ a. a.text.bytes };

    ghost invariant = { λ a. length a.text.bytes ≤ 128 };
}

impl Name {
    /// The name with this text.
    pub fn new(text: &str) -> Name
        requires { length text.now ≤ 128 }
        ensures { result ≡ text.now }
    {
        let mut name = ArrayString::new();
        name.push_str(text);
        Name { text: name }
    }

    /// Puts more text at its end.
    pub fn push_str(&mut self, text: &str)
        requires { length self.old + length text.now ≤ 128 }
        ensures { self.new ≡ self.old ++ text.now }
    {
        self.text.push_str(text);
    }

    /// Puts an ASCII character at its end.
    pub fn push(&mut self, c: char)
        requires ascii { c < 128 }
        requires room { length self.old < 128 }
        ensures { self.new ≡ self.old ++ c ∷ [] }
    {
        self.text.push(c);
    }

    pub fn as_str(&self) -> &str
        ensures text { result.now ≡ self.now }
        ensures fits { length result.now ≤ 128 }
    {
        self.text.as_str()
    }

    /// The same name once more. It takes no memory, so it can't fail.
    pub fn copy(&self) -> Name
        ensures { result ≡ self.now }
    {
        Name::new(self.as_str())
    }

    /// Whether it is this other name.
    pub fn is(&self, other: &Name) -> bool
        ensures { IsTrue result ↔ (self.now ≡ other.now) }
    {
        self.as_str() == other.as_str()
    }
}

impl Clone for Name {
    ghost is_clone = { λ name copy. copy ≡ name };

    fn clone(&self) -> Result<Name, AllocError> {
        Ok(self.copy())
    }
}

impl PartialEq for Name {
    ghost eq = { λ a b. pointwise nat_eq a b };

    ghost laws = { on_per (λ a. a) (partial_equiv_from_equiv nat_list_eq_equiv) };

    fn eq(&self, other: &Self) -> bool {
        self.as_str() == other.as_str()
    }
}

impl Eq for Name {
    ghost laws = { on_equiv (λ a. a) nat_list_eq_equiv };
}

impl PartialOrd for Name {
    ghost partial_cmp = { λ a b. Some (slice_cmp nat_cmp a b) };

    ghost laws = { on_po (λ a. a) texts_po };

    fn partial_cmp(&self, other: &Self) -> Option<Ordering> {
        Some(self.cmp(other))
    }
}

/// Names are ordered by their bytes.
impl Ord for Name {
    ghost cmp = { λ a b. slice_cmp nat_cmp a b };

    ghost total = { on_total (λ a. a) nat_list_cmp_total };

    ghost matches_partial_cmp = { λ a b. refl };

    ghost matches_eq = { λ a b. texts_ties a b };

    fn cmp(&self, other: &Self) -> Ordering {
        self.as_str().cmp(other.as_str())
    }
}
