// Names: sixteen bytes by value, judged, made of a text, and given a hash.
ghost use Rattle.std.specs.Prelude.{◌≡◌, ◌≤◌, ◌<◌, length};
ghost use Rattle.blocks.specs.Name.{name_byte, name_length, is_name, is_text, padded, hash_count, hash_of};

use blocks::bytes;
use blocks::sizes::NAME_SIZE;

// How many hashes of names there are: the walk keeps a flag for each.
pub const HASH_COUNT: usize = 1024;

// Whether a name may have the byte.
#[tactic(auto, using(std::proofs::lemmas::Bool::Decides::nat_tests), unfolding(blocks::specs::Name::name_byte))]
fn is_name_byte(b: u8) -> bool
    ensures { result ≡ name_byte b }
{
    matches!(b, b'a'..=b'z' | b'0'..=b'9' | b'.' | b'-')
}

// How many bytes that a name may have the list starts with.
pub fn name_length(text: &[u8]) -> usize
    ensures value { result ≡ name_length text.now }
    ensures upper_bound { result ≤ length text.now }
{
    text.iter().take_while(|b| is_name_byte(**b)).count()
}

// Whether the bytes of a slice are a name: each is of a name or zero, zeros come last, and not all are zero. One loop makes the three tests and looks at every
// byte, so that the compiler takes all sixteen at a time, also where the function is called.
pub fn are_name(bytes: &[u8]) -> bool
    ensures { result ≡ is_name bytes.now }
{
    if bytes.len() != NAME_SIZE {
        return false;
    }
    let mut good = true;
    let mut last = true;
    let mut some = false;
    let mut before = 1;
    for b in bytes {
        good &= is_name_byte(*b) | (*b == 0);
        last &= (before != 0) | (*b == 0);
        some |= *b != 0;
        before = *b;
    }
    good & last & some
}

// Whether sixteen bytes by value are a name.
pub fn is_name(name: [u8; NAME_SIZE]) -> bool
    ensures { result ≡ is_name name }
{
    are_name(&name)
}

// Whether a text can be a name: 1 to 16 bytes, each of them one that a name may have.
#[tactic(auto, using(std::proofs::lemmas::Bool::Decides::nat_tests), unfolding(blocks::specs::Name::is_text))]
fn is_text(text: &[u8]) -> bool
    ensures { result ≡ is_text text.now }
{
    !text.is_empty() && text.len() <= NAME_SIZE && name_length(text) == text.len()
}

// Any text as sixteen bytes: padded with zeros, or sixteen zeros where it is no name.
#[tactic(auto, using(blocks::proofs::NameLaws::text_short, blocks::proofs::NameLaws::padded_put, blocks::proofs::NameLaws::padded_none))]
pub fn pad_name(text: &[u8]) -> [u8; NAME_SIZE]
    ensures { result ≡ padded text.now }
{
    let mut name = [0; NAME_SIZE];
    if is_text(text) {
        bytes::put_bytes(&mut name, 0, text);
    }
    name
}

// A hash of sixteen bytes: bytes that have different hashes differ.
#[tactic(auto, unfolding(blocks::specs::Name::hash_of))]
pub fn hash(name: [u8; NAME_SIZE]) -> usize
    ensures value { result ≡ hash_of name }
    ensures upper_bound { result < hash_count }
{
    let a = u64::from(bytes::get_u32(&name, 0));
    let b = u64::from(bytes::get_u32(&name, 4));
    let c = u64::from(bytes::get_u32(&name, 8));
    let d = u64::from(bytes::get_u32(&name, 12));
    let sum = a + 5 * (b + c) + d;
    (sum * 44407899 / 4194304) as usize % HASH_COUNT
}
