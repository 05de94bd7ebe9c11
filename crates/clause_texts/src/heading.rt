//! Reading the two lines before a proof.

ghost use Rattle.std.specs.Prelude.{◌≡◌, ◌↔◌, Some};
ghost use Rattle.line_words.specs.Lines.{ended};
ghost use Rattle.line_words.specs.Numbers.{IsLong};
ghost use Rattle.clause_texts.specs.Step.Reading.{claim_in, view_in};
ghost use Rattle.clause_texts.specs.Text.{claim_text, view_text};

use edge_clauses::Claim;
use falling::View;
use itv_base::strip;
use line_words::long_in;

/// Reads the view from its line, without the line end. The answer is `None` for any other text.
pub fn read_view(text: &[u8]) -> Option<View>
    ensures exact { (view : View) → (result ≡ Some view) ↔ (ended text.now ≡ view_text view) }
{
    match str::from_utf8(text) {
        Ok(text) => view_in(text),
        Err(_) => None,
    }
}

fn view_in(text: &str) -> Option<View>
    ensures { result ≡ view_in text.now }
{
    match text {
        "view plain" => Some(View::Plain),
        "view negated" => Some(View::Negated),
        _ => None,
    }
}

/// Reads the claim, in picoseconds, from its line, without the line end. The answer is `None` for any other text, also where the number does not fit
/// 64 bits.
pub fn read_claim(text: &[u8]) -> Option<Claim>
    ensures exact { (claim : Claim) → (result ≡ Some claim) ↔ ((ended text.now ≡ claim_text claim.value) × IsLong claim.value) }
{
    match str::from_utf8(text) {
        Ok(text) => claim_in(text),
        Err(_) => None,
    }
}

fn claim_in(text: &str) -> Option<Claim>
    ensures { result ≡ claim_in text.now }
{
    let value = long_in(strip(text, "claim ")?)?;
    Some(Claim { value })
}
