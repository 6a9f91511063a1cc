//! Laws of the definitions alone: functions that do nothing, whose contracts hold of every plan and
//! every text.

ghost use Rattle.std.specs.Prelude.{◌≡◌, ◌↔◌, ℕ, List, Option, Result, Err, Ok};
ghost use Rattle.rip_plan.specs.Network.{Network};
ghost use Rattle.rip_plan.specs.Relations.{IsLawful};
ghost use Rattle.rip_routes.specs.OwnTables.{OwnTables};
ghost use Rattle.rip_routes.specs.RouteLines.{line_said};
ghost use Rattle.rip_routes.specs.RouteText.{LineSays, RefusesText, TellTables};
ghost use Rattle.rip_routes.specs.Telling.{tell_line, tell_said, tell_text};
ghost use Rattle.rip_routes.specs.declared.error.RoutesCause.{RoutesCause};
ghost use Rattle.rip_routes.specs.declared.error.RoutesError.{RoutesError};
ghost use Rattle.rip_routes.specs.declared.told.Told.{Told};

use rip_wire::laws;

/// What is computed of a line is what the words of the format say: it says nothing, or tells a
/// route, or is refused by the first rule that it breaks. A line is told by what it says.
pub fn told_lines()
    ensures says { (n : Network) (line : List ℕ) (said : Result (Option Told) RoutesCause) →
        IsLawful n → (line_said n line ≡ said) ↔ LineSays n line said }
    ensures tells { (n : Network) (t : OwnTables) (line : List ℕ) →
        tell_line n t line ≡ tell_said t (line_said n line) }
{
    laws::prefix_texts();
    laws::address_texts();
}

/// The tables of a text are those that the words of the format say, and a text tells one.
pub fn told_texts()
    ensures tables { (n : Network) (text : List ℕ) (t : OwnTables) →
        IsLawful n → (tell_text n text ≡ Ok t) ↔ TellTables n text t }
    ensures one { (n : Network) (text : List ℕ) (t u : OwnTables) →
        IsLawful n → TellTables n text t → TellTables n text u → t ≡ u }
{
    laws::prefix_texts();
    laws::address_texts();
}

/// A text is refused by its first bad line, for the cause with the lowest code, and tells no tables
/// then.
pub fn refused_texts()
    ensures refused { (n : Network) (text : List ℕ) (e : RoutesError) →
        IsLawful n → (tell_text n text ≡ Err e) ↔ RefusesText n text e }
    ensures apart { (n : Network) (text : List ℕ) (t : OwnTables) (e : RoutesError) →
        IsLawful n → TellTables n text t → ¬ RefusesText n text e }
{
    laws::prefix_texts();
    laws::address_texts();
}
