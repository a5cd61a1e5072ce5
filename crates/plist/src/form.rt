ghost use Rattle.std.specs.Prelude.{◌≡◌};
ghost use Rattle.plist.specs.Reading.{form_of};

/// The form of a value, by the name of its element.
#[derive(Clone, Copy, PartialEq, Eq)]
pub(crate) enum Form {
    /// `string`
    Text,
    /// `integer` or `real`
    Number,
    /// `true`
    True,
    /// `false`
    False,
    /// `array`
    Array,
    /// `dict`
    Dict,
    /// `date` or `data`
    Unread,
    /// No element of this name is a value.
    Unknown,
}

/// The form of the value that an element of this name is.
pub(crate) fn form_of(name: &str) -> Form
    ensures { result ≡ form_of name.now }
{
    if name == "string" {
        Form::Text
    } else if name == "integer" || name == "real" {
        Form::Number
    } else if name == "true" {
        Form::True
    } else if name == "false" {
        Form::False
    } else if name == "array" {
        Form::Array
    } else if name == "dict" {
        Form::Dict
    } else if name == "date" || name == "data" {
        Form::Unread
    } else {
        Form::Unknown
    }
}
