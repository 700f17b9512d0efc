ghost use Rattle.std.specs.Prelude.{IfErr, IfOk, OnOk};
ghost use Rattle.realtime_replay.specs.Flows.{flow};
ghost use Rattle.realtime_replay.specs.Clusters.{ClusterTells, HasShown, NodesTell, ShownAll};
ghost use Rattle.realtime_replay.specs.Faults as faults;

use crate::fault::RunFault;
use crate::replaying::MOST_SOURCE_BYTES;
use crate::status::{Status, status_of};
use rt_cluster_script::run;
use rt_io::{Sink, Source, read_all, write_all};
use rt_value::Bytes;
use std::alloc::Global;

/// What the script of nodes that a source gives shows.
fn shown_from<S: Source>(alloc: Global, source: &mut S) -> Result<Bytes, RunFault>
    ensures found { IfOk result (HasShown
        (flow (S.left source.old) (S.left source.new)
        (S.faults source.old) (S.faults source.new))) }
    ensures cause { IfErr result (NodesTell
        (flow (S.left source.old) (S.left source.new)
        (S.faults source.old) (S.faults source.new))) }
{
    let text = read_all(alloc, source, MOST_SOURCE_BYTES)?;
    let shown = run(alloc, text.get())?;
    Ok(shown)
}

/// Reads the script, runs it and writes what is shown.
fn run_nodes<S: Source, O: Sink>(alloc: Global, script: &mut S, out: &mut O) -> Result<(), RunFault>
    ensures ran { OnOk result (ShownAll
        (flow (S.left script.old) (S.left script.new) (S.faults script.old) (S.faults script.new))
        (flow (O.held out.old) (O.held out.new) (O.faults out.old) (O.faults out.new))) }
    ensures cause { IfErr result (λ fault. ClusterTells
        (flow (S.left script.old) (S.left script.new) (S.faults script.old) (S.faults script.new))
        (flow (O.held out.old) (O.held out.new) (O.faults out.old) (O.faults out.new))
        (faults.status_of fault)) }
{
    let shown = shown_from(alloc, script)?;
    write_all(out, shown.get())?;
    Ok(())
}

/// The status of a run of nodes.
pub fn cluster_status<S: Source, O: Sink>(alloc: Global, script: &mut S, out: &mut O) -> Status
    ensures { ClusterTells
        (flow (S.left script.old) (S.left script.new) (S.faults script.old) (S.faults script.new))
        (flow (O.held out.old) (O.held out.new) (O.faults out.old) (O.faults out.new))
        result }
{
    match run_nodes(alloc, script, out) {
        Ok(()) => Status::Ok,
        Err(fault) => status_of(fault),
    }
}
