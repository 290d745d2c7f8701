//! Numbers in plain decimal.
ghost use Rattle.std.specs.Prelude.{◌≡◌, ◌≢◌, ◌<◌, ◌^◌, ℕ, ℤ, MatchOption, FitsSigned, decimal};
ghost use Rattle.std.specs.Bool.{MatchBool};
ghost use Rattle.std.specs.Fmt.{signed_decimal};
ghost use Rattle.std.specs.Int.{w64};
ghost use Rattle.map_forms.specs.Decimals.{IsPlain, IsOther};

/// Whether nothing stands in a number's text that it can do without: no plus, no leading zero, and no minus before 0.
fn is_plain(text: &[u8]) -> bool
    ensures { MatchBool result (IsPlain text.now) (IsOther text.now) }
{
    !matches!(text, [b'+', ..] | [b'0', _, ..] | [b'-', b'0', ..])
}

/// Returns the number without a sign that this is the text of.
pub fn unsigned_of(text: &str) -> Option<u64>
    ensures { MatchOption result ((number : ℕ) → number < 2 ^ 64 → decimal number ≢ text.now) (λ number. decimal number ≡ text.now) }
{
    if !is_plain(text.as_bytes()) {
        return None;
    }
    text.parse().ok()
}

/// Returns the number that this is the text of.
pub fn signed_of(text: &str) -> Option<i64>
    ensures { MatchOption result ((number : ℤ) → FitsSigned w64 number → signed_decimal number ≢ text.now)
        (λ number. signed_decimal number ≡ text.now) }
{
    if !is_plain(text.as_bytes()) {
        return None;
    }
    text.parse().ok()
}
