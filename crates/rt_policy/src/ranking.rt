ghost use Rattle.std.specs.Prelude.{◌≡◌, ◌<◌, ◌^◌, map};
ghost use Rattle.rt_policy.specs.Ranks.{has_no_ring, reach, reach_in, rank_of, descends, largest};

use crate::{Judge, TableRules};

fn rank_in(entry: &TableRules) -> u64
    ensures value { result ≡ entry.now.rank }
    ensures fits { result < 2 ^ 32 }
{
    u64::from(entry.rank)
}

fn rank(tables: &[TableRules], table: u32) -> u64
    ensures value { result ≡ rank_of tables.now table }
    ensures fits { result < 2 ^ 32 }
{
    match tables.get(table as usize) {
        None => 0,
        Some(entry) => rank_in(entry),
    }
}

/// 1 more than the highest rank of a table that the expression reads.
#[cycle(reach)]
fn reach_of(tables: &[TableRules], judge: &Judge) -> u64
    ensures { result ≡ reach tables.now judge.now }
{
    match judge {
        Judge::Literal(_)
        | Judge::Outer(_)
        | Judge::Inner(_)
        | Judge::Uid
        | Judge::Role
        | Judge::Claim(_) => 0,
        Judge::Compare(_, a, b) => reach_of(tables, a.get()).max(reach_of(tables, b.get())),
        Judge::OneOf(a, all) => reach_of(tables, a.get()).max(reach_of_all(tables, all.get())),
        Judge::And(all) => reach_of_all(tables, all.get()),
        Judge::Or(all) => reach_of_all(tables, all.get()),
        Judge::Not(a) => reach_of(tables, a.get()),
        Judge::Is(_, a) => reach_of(tables, a.get()),
        Judge::Exists(table, condition) => {
            let behind = rank(tables, *table) + 1;
            behind.max(reach_of(tables, condition.get()))
        }
    }
}

#[cycle(reach)]
fn reach_of_all(tables: &[TableRules], judges: &[Judge]) -> u64
    ensures { result ≡ largest (map (reach tables.now) judges.now) }
{
    let mut most = 0;
    for judge in judges {
        most = most.max(reach_of(tables, judge));
    }
    most
}

fn reach_of_policy(tables: &[TableRules], judge: &Option<Judge>) -> u64
    ensures { result ≡ reach_in tables.now judge.now }
{
    match judge {
        None => 0,
        Some(judge) => reach_of(tables, judge),
    }
}

fn goes_down(tables: &[TableRules], entry: &TableRules) -> bool
    ensures { result ≡ descends tables.now entry.now }
{
    entry.policies.get().iter().all(|p| {
        !p.selects || reach_of_policy(tables, &p.judge) <= u64::from(entry.rank)
    })
}

/// Whether the policies that select read only tables of lesser rank.
pub fn is_free_of_rings(tables: &[TableRules]) -> bool
    ensures { result ≡ has_no_ring tables.now }
{
    tables.iter().all(|entry| goes_down(tables, entry))
}
