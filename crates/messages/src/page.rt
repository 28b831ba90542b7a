// Bytes put one behind the other into a lent buffer, as far as it reaches.
ghost use Rattle.std.specs.Prelude.{ℕ, ◌≡◌, ◌+◌, ◌<◌, ◌≤◌, length, max, min, take, slice_index, slice_set};
ghost use Rattle.std.proofs.lemmas.List.Edits.{sets};

use std::fmt;

// A lent buffer, and how many bytes were put into it.
#[derive(Drop)]
pub struct Page<'a> {
    bytes: &'a mut [u8],
    len: usize,
}

impl<'a> Page<'a> {
    pub fn new(bytes: &'a mut [u8]) -> Page<'a>
        ensures bytes { result.bytes.now ≡ bytes.old }
        ensures len { result.len ≡ 0 }
    {
        Page { bytes, len: 0 }
    }

    // What was put.
    pub fn written(&self) -> &[u8]
        ensures { result.now ≡ take (min self.now.len (length self.now.bytes.now)) self.now.bytes.now }
    {
        &self.bytes[..self.len.min(self.bytes.len())]
    }

    pub fn put(&mut self, b: u8)
        ensures byte { self.new.bytes.now ≡ slice_set self.old.bytes.now self.old.len b }
        ensures len { self.old.len < length self.old.bytes.now → self.new.len ≡ self.old.len + 1 }
        ensures full { length self.old.bytes.now ≤ self.old.len → self.new.len ≡ self.old.len }
    {
        if self.len < self.bytes.len() {
            self.bytes[self.len] = b;
            self.len += 1;
        }
    }

    pub fn put_all(&mut self, t: &[u8])
        ensures bytes { self.new.bytes.now ≡ sets self.old.bytes.now self.old.len t.now }
        ensures len { self.new.len ≡ max self.old.len (min (self.old.len + length t.now) (length self.old.bytes.now)) }
    {
        for b in t {
            self.put(*b);
        }
    }

    // The bytes of a text, each as a function gives it.
    pub fn put_each<F: Fn(u8) -> u8>(&mut self, t: &[u8], form: F)
        requires { F.IsAlwaysCallable form }
        ensures bytes { (i : ℕ) → i < length t.now → self.old.len + i < length self.old.bytes.now → F.post form (slice_index t.now i) (slice_index self.new.bytes.now (self.old.len + i)) }
        ensures before { take self.old.len self.new.bytes.now ≡ take self.old.len self.old.bytes.now }
        ensures room { length self.new.bytes.now ≡ length self.old.bytes.now }
        ensures len { self.new.len ≡ max self.old.len (min (self.old.len + length t.now) (length self.old.bytes.now)) }
    {
        for b in t {
            self.put(form(*b));
        }
    }

    // Takes back what was put behind so many bytes.
    pub fn cut(&mut self, len: usize)
        ensures bytes { self.new.bytes.now ≡ self.old.bytes.now }
        ensures len { self.new.len ≡ min self.old.len len }
    {
        self.len = self.len.min(len);
    }
}

impl fmt::Write for Page<'_> {
    fn write_str(&mut self, t: &str) -> fmt::Result {
        self.put_all(t.as_bytes());
        Ok(())
    }
}
