// In which form a data type may come.
ghost use Rattle.std.specs.Prelude.{◌≡◌};
ghost use Rattle.wire.specs.Rules.{judge};
ghost use Rattle.message.specs.Table.{access_of};
ghost use Rattle.message.specs.Reading.{form_rules};
ghost use Rattle.wire.specs.Refusals.{refusing};

use crate::{Form, Message};
use access::{Access, Level};
use wire::Refusal;

#[derive(Clone, Copy)]
pub enum Allowed {
    PlainOnly,
    Either,
    EncryptedWhenRequired,
}

// A message's access: the UART's only key is the admin's.
pub fn access_of(form: Form) -> Access
    ensures { result ≡ access_of form }
{
    match form {
        Form::Plain => Access::Plain,
        Form::Encrypted => Access::Keyed(Level::Admin),
    }
}

// What was read of the data, if the form is allowed.
pub fn in_form(
    allowed: Allowed,
    form: Form,
    required: bool,
    read: Result<Message, Refusal>,
) -> Result<Message, Refusal>
    ensures { result ≡ judge refusing (form_rules allowed form required) read }
{
    match allowed {
        Allowed::PlainOnly => match form {
            Form::Plain => read,
            Form::Encrypted => Err(Refusal::EncryptedRefused),
        },
        Allowed::Either => read,
        Allowed::EncryptedWhenRequired => match form {
            Form::Plain => {
                if required {
                    Err(Refusal::PlainRefused)
                } else {
                    read
                }
            }
            Form::Encrypted => read,
        },
    }
}
