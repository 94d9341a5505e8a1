//! Names of entries.

ghost use Rattle.std.specs.Prelude.{◌≡◌, ◌≤◌, List, ℕ, true, length, if◌then◌else◌};
ghost use Rattle.mw_model.specs.Names.{is_name, is_name_byte, is_zero, name_of, padded, spelling};
ghost use Rattle.std.specs.List.{list_all, position_or_len};

/// A name of 1 to 32 bytes of a-z 0-9 _ -, padded by zeros. It is copied without memory.
#[derive(Clone, Copy, PartialEq, Eq, Hash, Debug)]
pub struct Name {
    bytes: [u8; 32],
}

impl Name {
    /// The name that is spelled so, or `None` where the text is no name.
    pub fn parse(text: &[u8]) -> Option<Name>
        ensures { result ≡ (if is_name text.now then Some (name_of text.now) else None) }
    {
        if spells_name(text) {
            Some(Name {
                bytes: padded_bytes(text),
            })
        } else {
            None
        }
    }

    /// How the name is spelled: 1 to 32 bytes.
    pub fn bytes(&self) -> &[u8]
        ensures { result.now ≡ spelling self.now }
    {
        let end = zeros_begin(&self.bytes);
        &self.bytes[..end]
    }
}

/// How many bytes stand before the first zero.
fn zeros_begin(bytes: &[u8; 32]) -> usize
    ensures { result ≡ position_or_len is_zero bytes.now }
{
    for i in 0..32 {
        if bytes[i] == 0 {
            return i;
        }
    }
    32
}

fn spells_name(text: &[u8]) -> bool
    ensures { result ≡ is_name text.now }
{
    1 <= text.len() && text.len() <= 32 && stand_in_names(text)
}

fn stand_in_names(text: &[u8]) -> bool
    ensures { result ≡ list_all is_name_byte text.now }
{
    text.iter().all(|b| stands_in_names(*b))
}

fn stands_in_names(b: u8) -> bool
    ensures { result ≡ is_name_byte b }
{
    (b'a' <= b && b <= b'z') || (b'0' <= b && b <= b'9') || b == b'_' || b == b'-'
}

fn padded_bytes(text: &[u8]) -> [u8; 32]
    requires { length text.now ≤ 32 }
    ensures { result ≡ padded text.now }
{
    let mut bytes = [0; 32];
    bytes[..text.len()].copy_from_slice(text);
    bytes
}

/// What a name spells is what it was read from, and two texts never give one name.
pub fn names_keep_their_text()
    ensures spelled { (text : List ℕ) → is_name text ≡ true → spelling (name_of text) ≡ text }
    ensures apart { (a b : List ℕ) → is_name a ≡ true → is_name b ≡ true → name_of a ≡ name_of b → a ≡ b }
{}
