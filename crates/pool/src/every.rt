// Scans that ask every entry and leave none early, so that they run as vector code.
ghost use Rattle.std.specs.Prelude.{◌≡◌};
ghost use Rattle.pool.specs.ForProofs.Scans.{Every};

// Whether every entry passes.
pub(crate) fn every<T: Copy, F: Fn(T) -> bool>(entries: &[T], passes: F) -> bool
    requires { F.IsAlwaysCallable passes }
    ensures { Every (F.post passes) entries.now result }
{
    let mut ok = true;
    for entry in entries {
        ok &= passes(*entry);
    }
    ok
}
