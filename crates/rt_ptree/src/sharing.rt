ghost use Rattle.std.specs.Thread.{IsSend, IsSync};
ghost use Rattle.rt_ptree.specs.Sharing.{tree_row};

use crate::Tree;

fn may_share<T: Send + Sync>()
    ensures send { IsSend T.row }
    ensures sync { IsSync T.row }
{}

/// A map may be given to threads and shared by them, where its keys and values may.
pub fn trees_may_be_shared<K: Ord + Send + Sync, V: Send + Sync>()
    ensures send { IsSend (tree_row K.row V.row K.Ord) }
    ensures sync { IsSync (tree_row K.row V.row K.Ord) }
{
    may_share::<Tree<K, V>>();
}
