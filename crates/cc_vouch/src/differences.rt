//! The first bind of a certificate that is another one than what is known.

ghost use Rattle.std.specs.Prelude.{◌≡◌};
ghost use Rattle.cc_vouching.specs.VouchedDefinitions as plain;
ghost use Rattle.cc_vouch.specs.BindViews.{bind_of, binds_of};

use cc_base::name::Name;
use cc_core::Ty;
use cc_core::same::same_type;

// Whether two binds are of one name and of one type.
fn same_bind(one: &(Name, Ty), other: &(Name, Ty)) -> bool
    ensures { result ≡ plain.same_bind (bind_of one.now) (bind_of other.now) }
{
    one.0 == other.0 && same_type(&one.1, &other.1)
}

/// The number, from 1 on, of the first place where the binds have another one than what is known, or where one of both
/// has none; or that they are the same. It takes no memory.
pub fn first_difference(binds: &[(Name, Ty)], known: &[(Name, Ty)]) -> Option<usize>
    ensures { result ≡ plain.first_difference (binds_of binds.now) (binds_of known.now) }
{
    let mut count: usize = 0;
    let mut ones = binds;
    let mut others = known;
    while let Some((one, more)) = ones.split_first() {
        match others.split_first() {
            Some((other, further)) => {
                if !same_bind(one, other) {
                    return Some(count + 1);
                }
                ones = more;
                others = further;
                count += 1;
            }
            None => return Some(count + 1),
        }
    }
    if others.len() == 0 {
        return None;
    }
    Some(count + 1)
}
