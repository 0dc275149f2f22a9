// Triplets of positions.
ghost use Rattle.std.specs.Prelude.{◌≡◌, ◌+◌, ◌*◌, ◌≤◌, Decides};
ghost use Rattle.cdc_num.specs.Triplets.{IsLeastOf, Meet};

/// Positions in one dimension of an array, counted from 0: `lo`, and each further `step` up to `hi`. It has no position
/// where `lo` is above `hi`.
#[derive(Clone, Copy, Debug, PartialEq, Eq)]
pub struct Triplet {
    pub lo: u32,
    pub hi: u32,
    pub step: u32,
}

fn walked(turns: u32, by: u32, from: u32) -> u64
    ensures { result ≡ turns * by + from }
{
    turns as u64 * by as u64 + from as u64
}

// The least number of steps of `a` that, with `d` more, are some steps of `m`. What `d` lacks to the next step of `m` is
// then what so many steps of `a` are over some steps of `m`; so the same is asked with `m` for `a`, and with the
// remainder of `a` for `m`.
fn least(a: u32, d: u32, m: u32) -> Option<u32>
    ensures { IsLeastOf a d m result }
{
    if m == 0 {
        return if d == 0 { Some(0) } else { None };
    }
    let over = d % m;
    if over == 0 {
        return Some(0);
    }
    let by = a % m;
    if by == 0 {
        return None;
    }
    let lacks = m - over;
    let turns = least(m, lacks, by)?;
    Some((walked(turns, m, lacks) / by as u64) as u32)
}

// The same as `meet`, where `a` does not begin before `b`.
fn meet_from(a: Triplet, b: Triplet) -> bool
    requires { b.lo ≤ a.lo }
    ensures { Decides result (Meet a b) }
{
    match least(a.step, a.lo - b.lo, b.step) {
        None => false,
        Some(turns) => {
            let z = walked(turns, a.step, a.lo);
            z <= a.hi as u64 && z <= b.hi as u64
        }
    }
}

/// Whether some position is in both triplets.
pub fn meet(a: Triplet, b: Triplet) -> bool
    ensures { Decides result (Meet a b) }
{
    if a.lo < b.lo {
        meet_from(b, a)
    } else {
        meet_from(a, b)
    }
}
