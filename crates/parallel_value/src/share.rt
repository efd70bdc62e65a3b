// How the work is shared out between two parts of the workers.
ghost use Rattle.std.specs.Prelude.{◌≤◌, ◌<◌};

/// How many of the items belong to the first `half` of `many` workers.
pub fn share_of(items: usize, half: usize, many: usize) -> usize
    requires some { 0 < many }
    requires front { half ≤ many }
    requires few { many ≤ 64 }
    ensures { result ≤ items }
{
    items / many * half + items % many * half / many
}
