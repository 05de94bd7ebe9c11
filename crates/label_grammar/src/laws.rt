//! Laws on the definitions that the contracts of this crate cite. The functions do nothing.

ghost use Rattle.std.specs.Prelude.{◌≡◌, ℕ, List, Some};
ghost use Rattle.itv_base.specs.Range.{Ends};
ghost use Rattle.label_grammar.specs.Label.{LooseLabel, Span, version_1, version_2, with_span, IsLoose, spelling};
ghost use Rattle.label_grammar.specs.Reading.{ends_of, span_of, label_of};

/// Two different labels have two different spellings.
pub fn spellings_differ()
    ensures differ { (l m : LooseLabel Ends) → IsLoose version_1 l → IsLoose version_1 m → spelling version_1 l ≡ spelling version_1 m → l ≡ m }
    ensures differ2 { (l m : LooseLabel Span) → IsLoose version_2 l → IsLoose version_2 m → spelling version_2 l ≡ spelling version_2 m → l ≡ m }
{}

/// A reader reads each spelling as its label, and each text that is read as a label is the spelling of this label.
pub fn reading_inverts_spelling()
    ensures read { (l : LooseLabel Ends) → IsLoose version_1 l → label_of ends_of (spelling version_1 l) ≡ Some l }
    ensures spelled { (text : List ℕ) (l : LooseLabel Ends) → label_of ends_of text ≡ Some l → IsLoose version_1 l × (text ≡ spelling version_1 l) }
    ensures read2 { (l : LooseLabel Span) → IsLoose version_2 l → label_of span_of (spelling version_2 l) ≡ Some l }
    ensures spelled2 { (text : List ℕ) (l : LooseLabel Span) → label_of span_of text ≡ Some l → IsLoose version_2 l × (text ≡ spelling version_2 l) }
{}

/// Each label of version 1 is a label of version 2 with the same spelling. A label of version 2 that names no parameter is a label of version 1.
pub fn plain_labels_stay()
    ensures same { (l : LooseLabel Ends) → spelling version_2 (with_span l) ≡ spelling version_1 l }
    ensures stay { (text : List ℕ) (l : LooseLabel Ends) → label_of ends_of text ≡ Some l → label_of span_of text ≡ Some (with_span l) }
    ensures plain { (text : List ℕ) (l : LooseLabel Ends) → label_of span_of text ≡ Some (with_span l) → label_of ends_of text ≡ Some l }
{}
