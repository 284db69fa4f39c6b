//! What follows from the definitions, as contracts of functions with empty bodies.
ghost use Rattle.std.specs.Prelude.{◌≡◌, ◌++◌, ◌<◌, ◌≤◌, ◌^◌, length, ℕ, List, Option, None};
ghost use Rattle.bep_wire.specs.declared.fault.WireFault.{WireFault};
ghost use Rattle.bep_wire.specs.Content.{Item, Number, Bytes};
ghost use Rattle.bep_wire.specs.Grammar.{Reads, IsVarint, IsNumber};
ghost use Rattle.bep_wire.specs.Written.{shortest, number_field, bytes_field};
ghost use Rattle.bep_wire.specs.Fields.{fields, first_then};

/// Each byte list has exactly one reading in the grammar: a list of fields, and the end or one fault.
pub fn one_reading()
    ensures read { (bytes : List ℕ) → Reads bytes (fields bytes).items (fields bytes).fault }
    ensures only { (bytes : List ℕ) (items : List Item) (end : Option WireFault) →
        Reads bytes items end → (items ≡ (fields bytes).items) × (end ≡ (fields bytes).fault) }
{}

/// The fields of two joined byte lists, of which the first has no fault, are those of both.
pub fn joined_fields()
    ensures items { (a b : List ℕ) → (fields a).fault ≡ None →
        (fields (a ++ b)).items ≡ (fields a).items ++ (fields b).items }
    ensures fault { (a b : List ℕ) → (fields a).fault ≡ None → (fields (a ++ b)).fault ≡ (fields b).fault }
{}

/// The written varint of a number of 64 bits is a varint of it, and no varint of the number is shorter.
pub fn shortest_varint()
    ensures is_varint { (n : ℕ) → n < 2 ^ 64 → IsVarint (shortest n) n }
    ensures least { (n : ℕ) (bytes : List ℕ) → IsVarint bytes n → length (shortest n) ≤ length bytes }
{}

/// A written field is read as it was, whatever bytes follow it.
pub fn written_fields()
    ensures number { (number value : ℕ) (rest : List ℕ) → IsNumber number → value < 2 ^ 64 →
        fields (number_field number value ++ rest)
        ≡ first_then (record { number = number; content = Number value }) (fields rest) }
    ensures bytes { (number : ℕ) (bytes rest : List ℕ) → IsNumber number → length bytes < 2 ^ 64 →
        fields (bytes_field number bytes ++ rest)
        ≡ first_then (record { number = number; content = Bytes bytes }) (fields rest) }
{}
