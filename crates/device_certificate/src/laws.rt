//! What the definitions say, as contracts of functions that do nothing.
ghost use Rattle.std.specs.Prelude.{◌≡◌, ◌↔◌, ℕ, List, ◌∷◌, ◌++◌, false};
ghost use Rattle.std.specs.List.{count_by, list_any, concat};
ghost use Rattle.device_certificate.specs.Lines.{lines, is_line};
ghost use Rattle.device_certificate.specs.Certificate.{begin_line, end_line, IsBase64Of, IsCertificate, IsCertificateIdentity};

/// A text has one identity at most.
pub fn one_identity()
    ensures { (text a b : List ℕ) → IsCertificateIdentity text a → IsCertificateIdentity text b → a ≡ b }
{}

/// What stands before the one begin and after the next end does not matter.
pub fn stands_between()
    // Three premises divide the text at its one begin and the next end; what is between decodes exactly to the bytes.
    ensures { (text der : List ℕ) (before body after : List (List ℕ)) →
        lines text ≡ before ++ begin_line ∷ (body ++ end_line ∷ after) →
        count_by (is_line begin_line) (before ++ (body ++ after)) ≡ 0 →
        list_any (is_line end_line) body ≡ false →
        IsCertificate text der ↔ IsBase64Of (concat body) der }
{}
