ghost use Rattle.std.specs.Prelude.{◌≡◌, true};
ghost use Rattle.rt_policy.specs.Ranks.{has_no_ring};

use crate::TableRules;
use crate::ranking::is_free_of_rings;
use rt_value::List;

/// The row security of every table, by the table's number. An EXISTS of a policy that selects reads
/// only tables of lesser rank, so tables lead to each other in no ring.
#[derive(Drop)]
pub struct Rules {
    pub tables: List<TableRules>,
    pub ghost no_ring: { has_no_ring tables ≡ true },
}

impl Rules {
    ghost use Rattle.std.specs.Prelude.{◌≡◌, ◌↔◌, true, IsOk, IfOk, IfErr};
    ghost use Rattle.rt_policy.specs.Ranks.{has_no_ring};

    /// Gives the tables back where an EXISTS of a policy that selects reads a table of no lesser rank
    /// than the policy's own.
    pub fn new(tables: List<TableRules>) -> Result<Rules, List<TableRules>>
        ensures when { IsOk result ↔ (has_no_ring tables ≡ true) }
        ensures ok { IfOk result (λ rules. rules.tables ≡ tables) }
        ensures err { IfErr result (λ given. given ≡ tables) }
    {
        if is_free_of_rings(tables.get()) {
            Ok(Rules { tables })
        } else {
            Err(tables)
        }
    }
}
