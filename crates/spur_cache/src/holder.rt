//! Values that have a cache.

ghost use Rattle.std.specs.Prelude.{◌≡◌, ◌≢◌, ◌<◌, ◌^◌, IsSome};
ghost use Rattle.spur_cache.specs.Lens.{IsLens, Lens};
ghost use Rattle.spur_cache.specs.Lines.{IsCache, found, with_dirty, filled, with_state, with_word};
ghost use Rattle.spur_snoop.specs.declared.BlockState.TheVariants.{Invalid};

use crate::cache::Cache;
use crate::line::Line;
use spur_addr::GlobalAddr;
use spur_snoop::BlockState;

/// A value that has a cache, such as a board.
///
/// Each call that changes the cache changes nothing else of the value: it is the lens's `with_lines` of other lines. What that
/// keeps is the implementation's own to say, and the lens's three laws alone do not tell it: for a struct let it be the struct
/// with another cache, and nothing more.
pub trait HasCache {
    /// The lines of its cache, and the value with other lines and all else as it is.
    ghost lens: { Lens Self };

    /// Its cache.
    fn cache(&self) -> &Cache
        ensures lines { result.now ≡ lens.lines_of self.now }
        ensures cache { IsCache (lens.lines_of self.now) };

    /// `Cache::fill` on its cache.
    fn fill_line(&mut self, line: Line)
        requires tag { line.tag < 2 ^ 33 }
        ensures { self.new ≡ lens.with_lines self.old (filled (lens.lines_of self.old) line) };

    /// `Cache::set_state` on its cache.
    fn set_line_state(&mut self, at: GlobalAddr, state: BlockState)
        requires { IsSome (found (lens.lines_of self.old) at) }
        ensures { self.new ≡ lens.with_lines self.old (with_state (lens.lines_of self.old) at state) };

    /// `Cache::set_dirty` on its cache.
    fn set_line_dirty(&mut self, at: GlobalAddr)
        requires { IsSome (found (lens.lines_of self.old) at) }
        ensures { self.new ≡ lens.with_lines self.old (with_dirty (lens.lines_of self.old) at) };

    /// `Cache::set_word` on its cache.
    fn set_line_word(&mut self, at: GlobalAddr, value: u32)
        requires { IsSome (found (lens.lines_of self.old) at) }
        ensures { self.new ≡ lens.with_lines self.old (with_word (lens.lines_of self.old) at value) };

    /// What holds of each getter and setter of lines: to set what it has changes nothing, what was set is what it has,
    /// and of two sets the last counts.
    ghost lawful: { IsLens lens };
}

/// A cache has itself.
impl HasCache for Cache {
    ghost lens = { record { lines_of = λ lines. lines; with_lines = λ _ lines. lines } };

    ghost use Rattle.std.specs.Prelude.{refl};

    ghost lawful = { record { kept = λ _. refl; set = λ _ _. refl; twice = λ _ _ _. refl } };

    fn cache(&self) -> &Cache {
        // so that the check knows the lines to be those of a cache
        let _ = self.lines();
        self
    }

    fn fill_line(&mut self, line: Line) {
        self.fill(line);
    }

    fn set_line_state(&mut self, at: GlobalAddr, state: BlockState) {
        self.set_state(at, state);
    }

    fn set_line_dirty(&mut self, at: GlobalAddr) {
        self.set_dirty(at);
    }

    fn set_line_word(&mut self, at: GlobalAddr, value: u32) {
        self.set_word(at, value);
    }
}
