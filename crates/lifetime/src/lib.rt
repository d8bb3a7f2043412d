// The versions that a record lives at, document 02, 2026-13: from its own version on, until it is retired.
#![tactic(auto)]

ghost use Rattle.std.specs.Prelude.{◌≡◌};
ghost use Rattle.lifetime.specs.Lifetime.{covers};

// Whether a lifetime from one version, retired since another, covers a version.
pub fn covers(from: u32, since: u32, version: u32) -> bool
    ensures { result ≡ covers from since version }
{
    if version < from {
        return false;
    }
    if since == 0 {
        return true;
    }
    version < since
}
