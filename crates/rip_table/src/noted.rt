//! The numbers of the prefixes that a response has named.

ghost use Rattle.std.specs.Prelude.{◌≡◌, ◌≢◌, ◌%◌, ℕ, Some, None, true, false, replicate};
ghost use Rattle.rip_table.specs.Numbers.{flag_of};

/// How many flags there are: few enough to clear them for each response.
const FLAGS: usize = 128;

/// A Bloom filter with one hash: each number that is noted raises the flag of its remainder. A
/// number whose flag is down was not noted; one whose flag is up may be another.
#[derive(Drop)]
pub(crate) struct Noted {
    flags: [bool; FLAGS],
}

impl Noted {
    /// None is noted.
    pub(crate) fn new() -> Noted
        ensures { result.flags ≡ replicate FLAGS false }
    {
        Noted {
            flags: [false; FLAGS],
        }
    }

    /// Notes the number of a prefix, if it has one, and answers whether it may have been noted
    /// before.
    pub(crate) fn note(&mut self, number: Option<usize>) -> bool
        ensures fresh { (k : ℕ) → number ≡ Some k → result ≡ flag_of self.old.flags k }
        ensures unnumbered { number ≡ None → (result ≡ true) × (self.new ≡ self.old) }
        ensures noted { (k : ℕ) → number ≡ Some k → flag_of self.new.flags k ≡ true }
        ensures others { (j k : ℕ) → number ≡ Some k → j % FLAGS ≢ k % FLAGS →
            flag_of self.new.flags j ≡ flag_of self.old.flags j }
        ensures kept { (j : ℕ) → flag_of self.old.flags j ≡ true →
            flag_of self.new.flags j ≡ true }
    {
        match number {
            None => true,
            Some(k) => {
                let seems_noted = self.flags[k % FLAGS];
                self.flags[k % FLAGS] = true;
                seems_noted
            }
        }
    }
}
