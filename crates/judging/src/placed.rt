// Numbers 12 to 15, in the order of 01's table: of a message whose starts and homes stand in the tables.
ghost use Rattle.std.specs.Prelude.{◌≡◌, ◌≤◌, length, take};
ghost use Rattle.guide.specs.meaning.Guide.{guide_of};
ghost use Rattle.framing.specs.meaning.Limits.{most_bytes};
ghost use Rattle.framing.specs.meaning.Record.{verdict, place as at};
ghost use Rattle.judging.specs.method.Faults.{told};
ghost use Rattle.judging.specs.method.Table.{placed_verdict};

use framing::{Place, Verdict};
use guide::layout;
use reading::lookup;
use reading::service::Service;
use rules::finding::Finding;
use rules::{first_row, identifier};

#[derive(Clone, Copy, PartialEq, Eq, Debug)]
pub enum Fault {
    // The first field at fault.
    Field(Place),
    // The place of a Prüfidentifikator that the book does not have.
    Foreign(u32),
    Row(Finding),
}

impl From<Finding> for Fault {
    ghost use Rattle.std.specs.Prelude.{◌≡◌};
    ghost use Rattle.judging.specs.declared.placed.Fault.TheVariants.{Row};

    ghost from_gives = { λ finding fault. fault ≡ Row finding };

    fn from(finding: Finding) -> Fault {
        Fault::Row(finding)
    }
}

// 01's numbers.
impl From<Fault> for Verdict {
    ghost use Rattle.std.specs.Prelude.{◌≡◌};
    ghost use Rattle.judging.specs.method.Faults.{verdict_of};

    ghost from_gives = { λ fault verdict. verdict ≡ verdict_of fault };

    fn from(fault: Fault) -> Verdict {
        match fault {
            Fault::Field(place) => Verdict {
                number: 12,
                place,
                condition: 0,
            },
            Fault::Foreign(place) => Verdict::answer(13, place),
            Fault::Row(Finding::Broken { place, line }) => row_fault(14, place, line, 0),
            Fault::Row(
                Finding::Unsettled {
                    place,
                    line,
                    condition,
                },
            ) => row_fault(15, place, line, condition),
        }
    }
}

fn row_fault(number: u32, place: u32, line: u32, condition: u32) -> Verdict
    ensures { result ≡ verdict number (at place line 0 0) condition }
{
    Verdict {
        number,
        place: Place {
            at: place,
            line,
            ..Place::default()
        },
        condition,
    }
}

// The first of numbers 12 to 15, if there is one. In a message that passed number 3, an element's and a component's number fit 32 bits.
pub fn find_fault(
    service: Service,
    message: &[u8],
    segments: u32,
    book: &[u8],
    conditions: &[u8],
    starts: &[u32],
    homes: &[u32],
) -> Result<(), Fault>
    requires { length message.now ≤ most_bytes }
    ensures { told segments result ≡ placed_verdict service (guide_of book.now) message.now conditions.now segments (take segments starts.now) (take segments homes.now) }
{
    if let Err(fault) = fields::test_fields(service, message, segments, book, starts, homes) {
        return Err(Fault::Field(Place {
            at: fault.place,
            line: fault.line,
            element: fault.element as u32,
            component: fault.component as u32,
        }));
    }
    let place = placing::place_of(homes, segments, layout::carrier(book)).unwrap_or(0);
    let at = placing::start_of(starts, segments, place) as usize;
    let value = lookup::find_component(service, message, at, 1, 2);
    let known = identifier::find_identifier(book, value).ok_or(Fault::Foreign(place))?;
    first_row::first_row(book, known, conditions, segments, homes)?;
    Ok(())
}
