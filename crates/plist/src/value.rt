ghost use Rattle.std.specs.Prelude.{◌≡◌, map, option_map};
ghost use Rattle.plist.specs.Values as plain;
ghost use Rattle.plist.specs.Values.{plain_entry, plain_value};

use basics::Name;

/// A value of a property list (Apple's in XML, PropertyList-1.0.dtd). Texts and keys have no bound but the file's;
/// arrays and dictionaries stand at most 62 in one another, by the depth of a source text.
#[derive(Drop)]
pub enum Value {
    /// `string`: its text.
    Text(Name),
    /// `integer` or `real`: its text, which may be no number.
    Number(Name),
    /// `true` or `false`.
    Bool(bool),
    /// `array`: its values in order.
    Array(Vec<Value>),
    /// `dict`: its keys with their values in order; in what `read` gives no key stands twice.
    Dict(Vec<(Name, Value)>),
    /// `date` or `data`, which aren't read.
    Other,
}

impl Value {
    /// The text of a `string`.
    pub fn as_text(&self) -> Option<&str>
        ensures { option_map (λ text. text.now) result ≡ plain.as_text (plain_value self.now) }
    {
        match self {
            Value::Text(text) => Some(text.as_str()),
            _ => None,
        }
    }

    /// The text of an `integer` or a `real`.
    pub fn as_number(&self) -> Option<&str>
        ensures { option_map (λ text. text.now) result ≡ plain.as_number (plain_value self.now) }
    {
        match self {
            Value::Number(text) => Some(text.as_str()),
            _ => None,
        }
    }

    /// Whether it is `true`, of a `true` or a `false`.
    pub fn as_bool(&self) -> Option<bool>
        ensures { result ≡ plain.as_bool (plain_value self.now) }
    {
        match self {
            Value::Bool(holds) => Some(*holds),
            _ => None,
        }
    }

    /// The values of an `array`, in order.
    #[tactic(auto, using(crate::proofs::PlainLemmas::array_plain))]
    pub fn as_array(&self) -> Option<&[Value]>
        ensures { option_map (λ items. map plain_value items.now) result ≡ plain.as_array (plain_value self.now) }
    {
        match self {
            Value::Array(items) => Some(items.as_slice()),
            _ => None,
        }
    }

    /// The keys of a `dict` with their values, in order; in what `read` gives no key stands twice.
    #[tactic(auto, using(crate::proofs::PlainLemmas::dict_plain))]
    pub fn as_dict(&self) -> Option<&[(Name, Value)]>
        ensures { option_map (λ entries. map plain_entry entries.now) result ≡ plain.as_dict (plain_value self.now) }
    {
        match self {
            Value::Dict(entries) => Some(entries.as_slice()),
            _ => None,
        }
    }

    /// The value of a key, if this is a `dict` that has it. It is looked for from the first key on.
    pub fn get(&self, key: &str) -> Option<&Value>
        ensures { option_map (λ value. plain_value value.now) result ≡ plain.get key.now (plain_value self.now) }
    {
        for (name, value) in self.as_dict()? {
            if name.as_str() == key {
                return Some(value);
            }
        }
        None
    }
}
