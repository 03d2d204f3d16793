//! A question of a message (RFC 1035 section 4.1.2).
ghost use Rattle.std.specs.Prelude.{◌≡◌, ◌+◌};

use crate::NameView;
use crate::fields::number;
use std::marker::Model;

/// A question in a message, which stays where it is (RFC 1035 section 4.1.2).
#[derive(Drop)]
pub struct QuestionView<'a> {
    message: &'a [u8],
    at: usize,
    behind_name: usize,
}

impl<'a> Model for QuestionView<'a> {
    ghost use Rattle.dns_wire.specs.Message.{Question};
    ghost use Rattle.dns_wire.specs.Viewed.{question_shown, IsQuestionShown};

    ghost Value = { Question };

    ghost view = { λ q. question_shown q.message.now q.at q.behind_name };

    ghost invariant = { λ q. IsQuestionShown q.message.now q.at q.behind_name };
}

impl<'a> QuestionView<'a> {
    ghost use Rattle.dns_wire.specs.Viewed.{question_shown, IsQuestionShown};

    /// The question at an offset, whose name ends at another.
    pub(crate) fn over(message: &'a [u8], at: usize, behind_name: usize) -> QuestionView<'a>
        requires { IsQuestionShown message.now at behind_name }
        ensures { result ≡ question_shown message.now at behind_name }
    {
        QuestionView {
            message,
            at,
            behind_name,
        }
    }

    /// The name that is asked for, QNAME.
    pub fn name(&self) -> NameView<'a>
        ensures { result ≡ self.now.name }
    {
        NameView::over(self.message, self.at)
    }

    /// The type that is asked for, QTYPE.
    pub fn qtype(&self) -> u16
        ensures { result ≡ self.now.qtype }
    {
        number(self.message, self.behind_name)
    }

    /// The class that is asked for, QCLASS.
    pub fn qclass(&self) -> u16
        ensures { result ≡ self.now.qclass }
    {
        number(self.message, self.behind_name + 2)
    }
}
