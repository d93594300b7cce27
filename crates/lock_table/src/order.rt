//! The order of lock names, as reports list them.
ghost use Rattle.std.specs.Prelude.{◌≡◌};
ghost use Rattle.lock_table.specs.Order.{key_cmp, name_cmp, is_before, is_behind, lesser, nearer};
ghost use Rattle.std.specs.Option.{option_cmp};

use ids_base::lock::{Key, LockName};
use std::cmp::Ordering;

fn compare_keys(a: &Key, b: &Key) -> Ordering
    ensures { result ≡ key_cmp a.now b.now }
{
    a.bytes.cmp(&b.bytes).then(a.size.cmp(&b.size))
}

fn compare_parts(a: &Option<Key>, b: &Option<Key>) -> Ordering
    ensures { result ≡ option_cmp key_cmp a.now b.now }
{
    match (a, b) {
        (None, None) => Ordering::Equal,
        (None, Some(_)) => Ordering::Less,
        (Some(_), None) => Ordering::Greater,
        (Some(k), Some(l)) => compare_keys(k, l),
    }
}

fn is_before(a: &LockName, b: &LockName) -> bool
    ensures { result ≡ is_before a.now b.now }
{
    a.table
        .cmp(&b.table)
        .then(compare_parts(&a.key, &b.key))
        .is_lt()
}

fn is_behind(after: &Option<LockName>, name: &LockName) -> bool
    ensures { result ≡ is_behind after.now name.now }
{
    match after {
        None => true,
        Some(after) => is_before(after, name),
    }
}

fn lesser(best: Option<LockName>, name: LockName) -> LockName
    ensures { result ≡ lesser best name }
{
    match best {
        Some(least) if !is_before(&name, &least) => least,
        _ => name,
    }
}

/// The name, where it stands behind `after` and before the one found so far; else that one.
pub fn nearer(best: Option<LockName>, name: LockName, after: &Option<LockName>) -> Option<LockName>
    ensures { result ≡ nearer best name after.now }
{
    if is_behind(after, &name) {
        Some(lesser(best, name))
    } else {
        best
    }
}
