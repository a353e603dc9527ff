// What a line prints, as text put into lent memory.
ghost use Rattle.std.specs.Prelude.{◌≡◌, ◌∷◌, [], ◌++◌, ◌+◌, ◌≤◌, ◌<◌, length, take};
ghost use Rattle.blocks.specs.Bytes.{splice};
ghost use Rattle.blocks.specs.Name.{name_size};
ghost use Rattle.printing.specs.Text.{most_digits, decimal, name_text};

use blocks::bytes;
use blocks::sizes::NAME_SIZE;
use names::name;

// Bytes that are enough for what a line prints.
pub const LINE_ROOM: usize = 8192;

// A text in lent bytes: the first `length` of them. What is put stands after these, and every other byte stays as it was. Its methods put the parts, and no `Display`:
// `fmt::Write` promises the text where it gives `Ok`, and what a line prints is stated of every line.
#[derive(Drop)]
pub struct Text<'a> {
    pub bytes: &'a mut [u8],
    pub length: usize,
}

impl<'a> Text<'a> {
    // The empty text.
    pub fn new(bytes: &'a mut [u8]) -> Text<'a>
        ensures value { (result.length ≡ 0) × (result.bytes.now ≡ bytes.old) }
        ensures lent { result.bytes.ghost_name ≡ bytes.entry.ghost_name }
    {
        Text { bytes, length: 0 }
    }

    // The text of the bytes before index `at`, so that what is put stands from there on.
    pub fn after(bytes: &'a mut [u8], at: usize) -> Text<'a>
        ensures value { (result.length ≡ at) × (result.bytes.now ≡ bytes.old) }
        ensures lent { result.bytes.ghost_name ≡ bytes.entry.ghost_name }
    {
        Text { bytes, length: at }
    }

    // The bytes of a text that is within the lent bytes.
    pub fn bytes_within(&self) -> &[u8]
        requires { self.now.length ≤ length self.now.bytes.now }
        ensures { result.now ≡ take self.now.length self.now.bytes.now }
    {
        &self.bytes[..self.length]
    }

    // The bytes of the text: of one that is said to be longer than the lent bytes, all of these.
    pub fn as_bytes(&self) -> &[u8]
        ensures { result.now ≡ take self.now.length self.now.bytes.now }
    {
        if self.bytes.len() < self.length {
            return self.bytes;
        }
        self.bytes_within()
    }

    // Takes all bytes off.
    pub fn clear(&mut self)
        ensures value { (self.new.length ≡ 0) × (self.new.bytes.now ≡ self.old.bytes.now) }
        ensures lent { self.new.bytes.ghost_name ≡ self.old.bytes.ghost_name }
    {
        self.length = 0;
    }

    // Puts bytes at the end as they are.
    pub fn put(&mut self, text: &[u8])
        requires { self.old.length + length text.now ≤ length self.old.bytes.now }
        ensures value { (self.new.length ≡ self.old.length + length text.now) × (self.new.bytes.now ≡ splice self.old.bytes.now self.old.length text.now) }
        ensures lent { (self.new.bytes.ghost_name ≡ self.old.bytes.ghost_name) × (length self.new.bytes.now ≡ length self.old.bytes.now) }
    {
        bytes::put_bytes(self.bytes, self.length, text);
        self.length += text.len();
    }

    // Puts one decimal digit at the end.
    fn put_digit(&mut self, d: u32)
        requires { (d < 10) × (self.old.length + 1 ≤ length self.old.bytes.now) }
        ensures value { (self.new.length ≡ self.old.length + 1) × (self.new.bytes.now ≡ splice self.old.bytes.now self.old.length ((48 + d) ∷ [])) }
        ensures lent { (self.new.bytes.ghost_name ≡ self.old.bytes.ghost_name) × (length self.new.bytes.now ≡ length self.old.bytes.now) }
    {
        self.put(&[b'0' + d as u8]);
    }

    // Puts a number in decimal at the end: the digits of a tenth of it, then its last digit.
    fn put_decimal(&mut self, v: u32)
        requires { self.old.length + most_digits ≤ length self.old.bytes.now }
        ensures value { (self.new.length ≡ self.old.length + length (decimal v)) × (self.new.bytes.now ≡ splice self.old.bytes.now self.old.length (decimal v)) }
        ensures upper_bound { self.new.length ≤ self.old.length + most_digits }
        ensures lent { (self.new.bytes.ghost_name ≡ self.old.bytes.ghost_name) × (length self.new.bytes.now ≡ length self.old.bytes.now) }
    {
        if v < 10 {
            self.put_digit(v);
        } else {
            self.put_decimal(v / 10);
            self.put_digit(v % 10);
        }
    }

    // Puts a key and a number in decimal at the end.
    pub fn put_field(&mut self, key: &[u8], v: u32)
        requires { self.old.length + length key.now + most_digits ≤ length self.old.bytes.now }
        ensures value { (self.new.length ≡ self.old.length + length (key.now ++ decimal v)) × (self.new.bytes.now ≡ splice self.old.bytes.now self.old.length (key.now ++ decimal v)) }
        ensures upper_bound { self.new.length ≤ self.old.length + length key.now + most_digits }
        ensures lent { (self.new.bytes.ghost_name ≡ self.old.bytes.ghost_name) × (length self.new.bytes.now ≡ length self.old.bytes.now) }
    {
        self.put(key);
        self.put_decimal(v);
    }

    // Puts a name at the end, without the zero bytes that pad it.
    pub fn put_name(&mut self, name: [u8; NAME_SIZE])
        requires { self.old.length + name_size ≤ length self.old.bytes.now }
        ensures value { (self.new.length ≡ self.old.length + length (name_text name)) × (self.new.bytes.now ≡ splice self.old.bytes.now self.old.length (name_text name)) }
        ensures upper_bound { self.new.length ≤ self.old.length + name_size }
        ensures lent { (self.new.bytes.ghost_name ≡ self.old.bytes.ghost_name) × (length self.new.bytes.now ≡ length self.old.bytes.now) }
    {
        self.put(&name[..name::name_length(&name)]);
    }
}

#[cfg(test)]
mod tests {
    use super::*;

    #[test]
    fn bytes_of_a_text(rt: HostRuntime) {
        let wanted: [(usize, &[u8]); 5] = [
            (0, b""),
            (2, b"ab"),
            (3, b"abc"),
            (4, b"abc"),
            (usize::MAX, b"abc"),
        ];
        for (length, want) in wanted {
            let mut bytes = *b"abc";
            let text = Text::after(&mut bytes, length);
            assert_eq!(rt; text.as_bytes(), want, "at {length}");
        }
    }
}
