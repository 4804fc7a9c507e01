//! Where a list of tokens first goes wrong, for any grammar that is read with one token of sight: a theorem about charts.
#![tactic(auto)]

ghost use Rattle.std.specs.Prelude.{List, [], ◌∷◌, Some};
ghost use Rattle.st_charts.specs.Texts.{IsFirst};
ghost use Rattle.st_charts.specs.Checks.{Samples, IsChecked};
ghost use Rattle.st_charts.specs.Charts.{Grammar, Faults, part};

/// Where the chart faults, the tokens before begin a text, and with the next token they begin none.
pub fn first_fault<T, K, N>()
    ensures { (g : Grammar T K N) (s : Samples T K N) (start : N) → IsChecked g s start → (ts rest : List T)
        → Faults g (part start ∷ []) ts (Some rest) → IsFirst g start ts rest }
{}
