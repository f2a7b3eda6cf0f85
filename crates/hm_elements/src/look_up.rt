//! Names compared.
ghost use Rattle.std.specs.Prelude.{◌≡◌, bytes_eq, length};
ghost use Rattle.hm_elements.specs.Names.{is_among};
ghost use Rattle.hm_elements.specs.Texts.{texts};

/// Whether the names are the same. Most names that are compared differ in length or in an early byte,
/// which costs a few instructions here; `==` of two texts is a call for each pair.
pub fn same_name(a: &str, b: &str) -> bool
    ensures { result ≡ bytes_eq a.now b.now }
{
    a.len() == b.len() && are_same(a.as_bytes(), b.as_bytes())
}

/// Whether the bytes are the same, of two texts of one length.
fn are_same(a: &[u8], b: &[u8]) -> bool
    requires { length a.now ≡ length b.now }
    ensures { result ≡ bytes_eq a.now b.now }
{
    for i in 0..a.len() {
        if a[i] != b[i] {
            return false;
        }
    }
    true
}

/// Whether the name is one of these.
pub fn is_one_of(name: &str, names: &[&str]) -> bool
    ensures { result ≡ is_among name.now (texts names.now) }
{
    for n in names {
        if same_name(n, name) {
            return true;
        }
    }
    false
}
