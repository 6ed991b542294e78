//! What holds for every file and its code. These functions have empty bodies; each contract is a theorem.

ghost use Rattle.std.specs.Prelude.{◌≡◌, ◌<◌, ◌^◌, ◌⊎◌, ℕ, [], ◌∷◌, All};
ghost use Rattle.byteorder.specs.Endian.{big_number};
ghost use Rattle.text_model.specs.Texts.{Text};
ghost use Rattle.code_model.specs.Code.{Code};
ghost use Rattle.code_file.specs.declared.error.CodeError.{CodeError};
ghost use Rattle.code_file.specs.declared.error.CodeErrorKind.TheVariants as kind;
ghost use Rattle.code_file.specs.Grammar.{number, IsCodeFile};
ghost use Rattle.code_file.specs.Fault.{fault, IsFirstFault, IsRefusal};

/// Two bytes and their number determine each other.
pub fn number_has_two_bytes()
    ensures number { (n : ℕ) → n < 2 ^ 16 → big_number 2 (number n) ≡ n }
    ensures bytes { (high low : ℕ) → high < 2 ^ 8 → low < 2 ^ 8 → number (big_number 2 (high ∷ low ∷ []))
        ≡ high ∷ low ∷ [] }
{}

/// Any bytes are the file of a code, or have a first error.
pub fn bytes_have_a_code_or_a_fault()
    ensures { (bytes : Text) → All (λ b. b < 2 ^ 8) bytes → ((c : Code) × IsCodeFile bytes c)
        ⊎ ((e : CodeError) × IsFirstFault bytes e) }
{}

/// Bytes are the file of at most one code.
pub fn file_has_one_code()
    ensures { (bytes : Text) (c d : Code) → IsCodeFile bytes c → IsCodeFile bytes d → c ≡ d }
{}

/// A code has one file.
pub fn code_has_one_file()
    ensures { (x y : Text) (c : Code) → IsCodeFile x c → IsCodeFile y c → x ≡ y }
{}

/// The file of a code has no error.
pub fn file_has_no_fault()
    ensures { (bytes : Text) (c : Code) (e : CodeError) → IsCodeFile bytes c → IsFirstFault bytes e → ⊥ }
{}

/// Reading the file of a code gives that code, or memory runs out.
pub fn written_code_is_read()
    ensures { (bytes : Text) (c : Code) → IsCodeFile bytes c
        → ((d : Code) → IsCodeFile bytes d → d ≡ c)
        × ((e : CodeError) → IsRefusal bytes e → e ≡ fault kind.NoMemory 0) }
{}

/// Bytes have at most one first error.
pub fn file_has_one_fault()
    ensures { (bytes : Text) (e f : CodeError) → IsFirstFault bytes e → IsFirstFault bytes f → e ≡ f }
{}
