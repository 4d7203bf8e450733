//! Shared references.

use fr_base::ObjNo;
use global_addr::Word;

/// A shared reference to an object: the word that it leads by, and whether it keeps the cached copy of that word in use.
#[derive(Clone, Copy, Debug, PartialEq, Eq)]
pub struct SharedRef {
    pub word: Word,
    pub object: ObjNo,
    pub pinned: bool,
}
