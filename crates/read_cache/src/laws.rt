//! Laws of the definitions.

ghost use Rattle.read_cache.specs.Computes.{CacheComputes};

/// Some calls on cached copies, computed.
pub fn cache_computes()
    ensures { CacheComputes }
{}
