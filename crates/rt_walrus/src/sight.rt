ghost use Rattle.std.specs.Prelude.{◌≡◌, ◌+◌};
ghost use Rattle.rt_change.specs.Verdicts.{verdict_of};
ghost use Rattle.rt_value.specs.Tables.{rows_of_table};

use crate::access::{may_select, may_select_key};
use crate::deciding::decided;
use crate::steps::Steps;
use rt_catalog::Catalog;
use rt_change::{Change, Verdict};
use rt_filter::Subscription;
use rt_replica::Tables;
use rt_value::Shared;
use std::marker::Model;
use std::sync::ledger::Ledger;

/// What a role may SELECT of a table, by the grants of a catalogue. Made once for the two, so that
/// no verdict walks the grants. Contracts see the catalogue, the role and the table.
#[derive(Drop)]
pub struct Sight {
    catalog: Shared<Catalog>,
    role: u32,
    table: u32,
    selects_key: bool,
}

impl Model for Sight {
    ghost use Rattle.rt_walrus.specs.Sighted.{Sighted};
    ghost use Rattle.rt_catalog.specs.contracts.catalog.Catalog as the_catalog;
    ghost use Rattle.std.specs.Coded.{codes};
    ghost use Rattle.std.specs.Prelude.{◌≡◌};
    ghost use Rattle.rt_change.specs.Verdicts.{may_select_key};

    ghost Value = { Sighted };

    ghost coded = { Prim.hlevel (codes, the_catalog.the_row.coded) };

    ghost view = { λ s. record { catalog = s.catalog; role = s.role; table = s.table } };

    ghost invariant = { λ s. s.selects_key ≡ may_select_key s.catalog s.role s.table };
}

impl Sight {
    /// Of a role and a table. Goes over the grants once for each column of the table's key.
    pub fn new(catalog: Shared<Catalog>, role: u32, table: u32) -> Self
        ensures { result ≡ record { catalog = catalog; role = role; table = table } }
    {
        let selects_key = may_select_key(catalog.get(), role, table);
        Sight {
            catalog,
            role,
            table,
            selects_key,
        }
    }

    /// What a subscription of this role gets of a change of this table, as
    /// [`verdict`](crate::verdict) says. Takes no memory, and walks no grants.
    pub fn verdict(&self, tables: &Tables, subscription: &Subscription, change: &Change) -> Verdict
        requires role { subscription.now.role ≡ self.now.role }
        requires table { change.now.table ≡ self.now.table }
        ensures { let rows = rows_of_table tables.now in
            result ≡ verdict_of self.now.catalog rows subscription.now change.now }
    {
        decided(
            self.catalog.get(),
            tables,
            subscription,
            change,
            self.selects_key,
        )
    }

    /// The same, and one more in the count of verdicts.
    pub fn judge<L: Ledger>(
        &self,
        tables: &Tables,
        subscription: &Subscription,
        change: &Change,
        steps: &mut Steps<L>,
    ) -> Verdict
        requires role { subscription.now.role ≡ self.now.role }
        requires table { change.now.table ≡ self.now.table }
        ensures verdict { let rows = rows_of_table tables.now in
            result ≡ verdict_of self.now.catalog rows subscription.now change.now }
        ensures count { steps.new ≡ steps.old + 1 }
    {
        steps.tick();
        self.verdict(tables, subscription, change)
    }
}
