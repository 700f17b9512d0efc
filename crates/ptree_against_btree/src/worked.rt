use rt_ptree::Tree;
use std::alloc::{AllocError, Global};
use std::sync::Arc;

fn insert(tree: &mut Tree<u32, u32>, alloc: Global, key: u32) -> Result<(), AllocError> {
    let value = Arc::new(alloc, key)?;
    let key = Arc::new(alloc, key)?;
    tree.insert(key, value).map_err(|_| AllocError)
}

// The keys of the tree, each behind a space.
fn push_keys(shown: &mut String, alloc: Global, tree: &Tree<u32, u32>) -> Result<(), AllocError> {
    for (key, _) in tree.entries_from(&0) {
        shown.push_str(format!(in alloc; " {key}")?.as_str())?;
    }
    Ok(())
}

/// The keys 1, 2 and 3, of which a snapshot is taken; then 2 goes and 4 comes.
pub(crate) fn example(alloc: Global) -> Result<String, AllocError> {
    let mut tree = Tree::new(alloc);
    for key in [1, 2, 3] {
        insert(&mut tree, alloc, key)?;
    }
    let snapshot = tree.snapshot()?;
    let was_there = tree.remove(&2)?;
    insert(&mut tree, alloc, 4)?;
    let is_there = tree.remove(&2)?;
    let mut shown = format!(in alloc; "2 removed: {was_there}, again: {is_there}, snapshot")?;
    push_keys(&mut shown, alloc, &snapshot)?;
    shown.push_str(", tree")?;
    push_keys(&mut shown, alloc, &tree)?;
    Ok(shown)
}
