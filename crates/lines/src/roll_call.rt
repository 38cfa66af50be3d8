// A small client of every line: all fixtures but one.
ghost use Rattle.std.specs.Prelude.{◌≡◌, not, ◌&&◌, ◌==◌};
ghost use Rattle.lines.specs.Meaning.{is_fitted, is_awake};
ghost use Rattle.lines.specs.Rules.{roused, hushed};

use crate::line::Line;

// Wakes every fixture and hushes one key. Answers whether that key is fitted.
pub fn wake_all_but<L: Line>(line: &mut L, key: L::Key) -> bool
    ensures after { L.Line.means line.new ≡ hushed L.Key.Family.rank (roused (L.Line.means line.old)) key }
    ensures answer { result ≡ is_fitted (L.Line.means line.old) key }
    ensures every_other_fitted_key_is_awake { (k : L.Key) → is_awake (L.Line.means line.new) k ≡ (is_fitted (L.Line.means line.old) k && not (L.Key.Family.rank k == L.Key.Family.rank key)) }
{
    line.rouse();
    line.hush(key)
}
