// Requests and responses.
ghost use Rattle.std.specs.Prelude.{◌≡◌, string_bytes};

use http::{Method, StatusCode};
use std::alloc::AllocError;
use std::marker::Model;

/// Bytes of a message.
#[derive(Debug, Drop)]
pub struct Bytes {
    bytes: Vec<u8>,
}

impl Model for Bytes {
    ghost use Rattle.std.specs.Prelude.{List, ℕ};

    ghost Value = { List ℕ };

    ghost view = { λ b. b.bytes.items };
}

impl Bytes {
    /// Makes the value of these bytes.
    pub fn new(bytes: Vec<u8>) -> Bytes
        ensures { result ≡ bytes.items }
    {
        Bytes { bytes }
    }

    /// Returns the bytes as a slice.
    pub fn as_slice(&self) -> &[u8]
        ensures { result.now ≡ self.now }
    {
        &self.bytes
    }

    /// Returns the bytes as a vector.
    pub fn into_vec(self) -> Vec<u8>
        ensures { result.items ≡ self }
    {
        self.bytes
    }
}

impl Clone for Bytes {
    ghost use Rattle.std.specs.Prelude.{◌≡◌};

    ghost is_clone = { λ x y. y ≡ x };

    fn clone(&self) -> Result<Bytes, AllocError> {
        Ok(Bytes {
            bytes: self.bytes.clone()?,
        })
    }
}

/// A text of a message.
#[derive(Debug, Drop)]
pub struct Text {
    text: String,
}

impl Model for Text {
    ghost use Rattle.std.specs.Prelude.{List, ℕ, string_bytes};

    ghost Value = { List ℕ };

    ghost view = { λ t. string_bytes t.text };
}

impl Text {
    /// Makes the value of this text.
    pub fn new(text: String) -> Text
        ensures { result ≡ string_bytes text }
    {
        Text { text }
    }

    /// Returns the text as a `str`.
    pub fn as_str(&self) -> &str
        ensures { result.now ≡ self.now }
    {
        self.text.as_str()
    }
}

/// A field: its name, and its value without the white space around it (RFC 9110, section 5).
/// Neither is checked when it is written, so a caller must let no line end come in from outside.
#[derive(Debug, Drop)]
pub struct Field {
    pub name: Bytes,
    pub value: Bytes,
}

/// The fields of a message, in order.
#[derive(Debug, Drop)]
pub struct Fields {
    list: Vec<Field>,
}

impl Model for Fields {
    ghost use Rattle.std.specs.Prelude.{List};
    ghost use Rattle.wire_http.specs.declared.message.Field.{Field};

    ghost Value = { List Field };

    ghost view = { λ f. f.list.items };
}

impl Fields {
    /// Makes the value of these fields.
    pub fn new(list: Vec<Field>) -> Fields
        ensures { result ≡ list.items }
    {
        Fields { list }
    }

    /// Returns the fields in order.
    pub fn as_slice(&self) -> &[Field]
        ensures { result.now ≡ self.now }
    {
        &self.list
    }
}

/// A request that was read. The Host field is among the fields.
#[derive(Debug, Drop)]
pub struct Request {
    pub method: Method,
    pub target: Text,
    pub fields: Fields,
    pub body: Bytes,
}

/// A response. The body of a response that was read is bytes; the body of a response that is
/// written is any `Part`.
#[derive(Debug, Drop)]
pub struct Response<B = Bytes> {
    pub status: StatusCode,
    pub fields: Fields,
    pub body: B,
}

/// A request to be written. The host is separate from the other fields.
#[derive(Debug, Drop)]
pub struct CallRequest {
    pub method: Method,
    pub target: Text,
    pub host: Text,
    pub fields: Fields,
    pub body: Bytes,
}
