//! The text of a reply.

ghost use Rattle.std.specs.Prelude.{◌++◌};
ghost use Rattle.std.specs.Fmt.{WritesOnOk};

use building_holidays::{ImportCause, ImportFault};
use deliveries::Reply;
use itoa::{Buffer, Integer};
use points::Answer;
use std::fmt;

/// A reply as one JSON object, compact, its keys in byte order.
#[derive(Clone, Copy)]
pub struct ReplyText(pub Reply);

impl fmt::Display for ReplyText {
    ghost use Rattle.std.specs.Prelude.{Some};
    ghost use Rattle.delivery_json.specs.ReplyText.{reply_text};

    ghost output = { λ reply. Some (reply_text reply.0) };

    fn fmt<W: fmt::Write>(&self, f: &mut fmt::Formatter<W>) -> fmt::Result {
        match self.0 {
            Reply::NoPanel => f.write_str("{\"answer\":\"no_panel\"}"),
            Reply::BadNumber => f.write_str("{\"answer\":\"bad_number\"}"),
            Reply::Differs { number } => {
                write_integer(f, "{\"answer\":\"differs\",\"number\":", number)?;
                f.write_str("}")
            }
            Reply::Answered { number, answer } => AnswerText { number, answer }.fmt(f),
            Reply::Parked { next, number } => {
                write_integer(f, "{\"answer\":\"parked\",\"next\":", next)?;
                write_integer(f, ",\"number\":", number)?;
                f.write_str("}")
            }
            Reply::Skipped { number } => {
                write_integer(f, "{\"answer\":\"skipped\",\"number\":", number)?;
                f.write_str("}")
            }
            Reply::TooFar { next, number } => {
                write_integer(f, "{\"answer\":\"too_far\",\"next\":", next)?;
                write_integer(f, ",\"number\":", number)?;
                f.write_str("}")
            }
            Reply::SkipDone { next } => write!(f, "{{\"answer\":\"skip\",\"next\":{next}}}"),
            Reply::Forgotten { number } => {
                write_integer(f, "{\"answer\":\"forgotten\",\"number\":", number)?;
                f.write_str("}")
            }
            Reply::Ticked { writes } => write!(f, "{{\"answer\":\"tick\",\"writes\":{writes}}}"),
            Reply::Old => f.write_str("{\"answer\":\"old\",\"writes\":0}"),
            Reply::BadMoment => f.write_str("{\"answer\":\"bad_moment\"}"),
            Reply::Imported {
                added,
                known,
                writes,
            } => write!(
                f,
                "{{\"added\":{added},\"answer\":\"import\",\"known\":{known},\"writes\":{writes}}}"
            ),
            Reply::ImportRefused { record } => write!(
                f,
                "{}",
                RefusedImportText(ImportCause::UnknownCalendar.at(record))
            ),
        }
    }
}

/// Writes a text and a number after it. Nearly every reply has some, which `itoa` writes for half of what `write!` takes.
fn write_integer<W: fmt::Write, I: Integer>(
    f: &mut fmt::Formatter<W>,
    text: &str,
    number: I,
) -> fmt::Result
    ensures { WritesOnOk W.write_str_gives f.old result (text.now ++ I.text number) f.new }
{
    f.write_str(text)?;
    f.write_str(Buffer::new().format(number))
}

/// The answer to a command, with the command's number.
#[derive(Clone, Copy)]
struct AnswerText {
    number: i64,
    answer: Answer,
}

impl fmt::Display for AnswerText {
    ghost use Rattle.std.specs.Prelude.{Some};
    ghost use Rattle.delivery_json.specs.ReplyText.{answer_text};

    ghost output = { λ answered. Some (answer_text answered.number answered.answer) };

    fn fmt<W: fmt::Write>(&self, f: &mut fmt::Formatter<W>) -> fmt::Result {
        let number = self.number;
        match self.answer {
            Answer::Done { present, priority } => {
                write_integer(f, "{\"answer\":\"done\",\"number\":", number)?;
                write_integer(f, ",\"present\":", present)?;
                write_integer(f, ",\"priority\":", priority)?;
                f.write_str("}")
            }
            Answer::Refused(rule) => {
                write!(
                    f,
                    "{{\"answer\":\"refused\",\"number\":{number},\"rule\":\"{rule}\"}}"
                )
            }
        }
    }
}

/// The refusal of an import as one JSON object, compact, its keys in byte order.
#[derive(Clone, Copy)]
pub struct RefusedImportText(pub ImportFault);

impl fmt::Display for RefusedImportText {
    ghost use Rattle.std.specs.Prelude.{Some};
    ghost use Rattle.delivery_json.specs.ReplyText.{refusal_text};

    ghost output = { λ refused. Some (refusal_text refused.0) };

    fn fmt<W: fmt::Write>(&self, f: &mut fmt::Formatter<W>) -> fmt::Result {
        let ImportFault { cause, record } = self.0;
        write!(
            f,
            "{{\"answer\":\"import_refused\",\"fault\":\"{cause}\",\"record\":{record}}}"
        )
    }
}
