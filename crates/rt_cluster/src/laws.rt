//! Laws of the definitions. Each is a function with an empty body.
ghost use Rattle.rt_cluster.specs.Laws.{Converges, MergeStands, ReplicasAgree, ReplicasShow};

/// Lists of the same operations, in whatever order and however often they came, show the same.
pub fn converges()
    ensures { Converges }
{}

/// What a replica that stands for operations shows is what they show.
pub fn replicas_show()
    ensures { ReplicasShow }
{}

/// Two replicas that stand for the same operations show the same.
pub fn replicas_agree()
    ensures { ReplicasAgree }
{}

/// What is kept of two sets of marks and seen dots at a merge stands for the operations of both.
pub fn merge_stands()
    ensures { MergeStands }
{}
