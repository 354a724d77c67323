// The checks 3 to 8 in order: the first refusal is the answer. Each is asked only where the earlier ones found nothing.
ghost use Rattle.std.specs.Prelude.{◌≡◌};
ghost use Rattle.rules.specs.Lent.{tables_of};
ghost use Rattle.rules.specs.Sound.{check_tables};

use crate::{classes, fixed, intervals, limits, mentions, safepoints};
use rules::{Refusal, Tables};

// Whether the tables are sound, else the refusal and its place.
pub fn check_tables(tables: &Tables) -> Result<(), Refusal>
    ensures { result ≡ check_tables (tables_of tables.now) }
{
    limits::check_limits(tables)?;
    if let Some(k) = classes::bad_class(tables) {
        return Err(Refusal::BadClass(k));
    }
    if let Some(k) = intervals::bad_interval(tables) {
        return Err(Refusal::BadInterval(k));
    }
    if let Some(k) = mentions::bad_mention(tables) {
        return Err(Refusal::BadMention(k));
    }
    if let Some(k) = safepoints::bad_safepoint(tables) {
        return Err(Refusal::BadSafepoint(k));
    }
    if let Some(k) = fixed::bad_fixed(tables) {
        return Err(Refusal::BadFixed(k));
    }
    Ok(())
}
