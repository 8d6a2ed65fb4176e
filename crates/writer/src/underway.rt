ghost use Rattle.std.specs.Prelude.{◌≡◌, ℕ, ◌+◌, ◌^◌, ◌<◌, List, [], ◌∷◌, ◌++◌, length, IfOk, MatchResult};
ghost use Rattle.byte_layer.specs.Fault.{heard};
ghost use Rattle.book.specs.Fault.{told_book};
ghost use Rattle.book.specs.declared.row.Row.TheVariants as kind;
ghost use Rattle.writer.specs.Admit.{member_admitted};
ghost use Rattle.writer.specs.Lawful.{row_in};
ghost use Rattle.writer.specs.Calls.{member_next, MemberFiled, Unchanged};
ghost use Rattle.writer.specs.Holding.{Holds, Owes, HoldsNext};

use crate::admit::Desk;
use crate::lawful::LawfulRow;
use crate::state::{Filed, GroupUnderway, Membership, OpenBook, Refused};
use bid::fields::BidFields;
use bid::group::same_area;
use book::fault::BookFault;
use book::row::Row;
use units::limit::are_four;

impl GroupUnderway {
    // Room for a row more is asked at the call: definitions build such values, and could not with a ghost field
    // (docs/DECISIONS.md).
    // What a member of that area makes of the group.
    fn onward(self, area: u8) -> Membership
        requires { (self.book.length + 51 < 2 ^ 64) × (self.book.rows < 1024) }
        ensures { result ≡ member_next self area }
    {
        let GroupUnderway {
            book,
            before,
            due,
            first,
        } = self;
        let book = OpenBook {
            length: book.length + 51,
            rows: book.rows + 1,
        };
        if due <= 1 {
            return Membership::Last(book);
        }
        Membership::More(GroupUnderway {
            book,
            before,
            due: due - 1,
            first: Some(first.unwrap_or(area)),
        })
    }

    // The bid as the next member, or what it is refused for: as any row, and then 25, where its area is not the first's.
    fn admit(&self, text: &[u8], fields: BidFields) -> Result<LawfulRow, BookFault>
        ensures { heard told_book (row_in result) ≡ member_admitted (length text.now) self.now fields }
    {
        let desk = Desk::over(text, self.book.length, self.book.rows);
        let lawful = desk.admit(Row::Bid(fields))?;
        if !same_area(self.first, fields.area) {
            return Err(BookFault::Mixed(self.before.rows));
        }
        Ok(lawful)
    }

    // A refusal is matched on: a group cannot be copied, and `map_err` would take it into its closure, though it is needed
    // where the call succeeds.
    // Files a bid as the group's next member.
    pub fn member(
        self,
        text: &mut [u8],
        fields: BidFields,
    ) -> Result<Filed<Membership>, Refused<GroupUnderway>>
        ensures outcome { MatchResult result (λ p. MemberFiled self text.old fields p text.new) (λ p. Unchanged self text.old (member_admitted (length text.old) self fields) p text.new) }
        ensures holds { IfOk result (λ p. (rs ms : List Row) → Owes text.old self rs ms → HoldsNext text.new p.next rs (ms ++ kind.Bid fields ∷ [])) }
    {
        are_four(&fields.quarters);
        match self.admit(text, fields) {
            Err(fault) => Err(Refused { back: self, fault }),
            Ok(lawful) => {
                let row = self.book.rows;
                lawful.write(text, self.book.length);
                Ok(Filed {
                    next: self.onward(fields.area),
                    row,
                })
            }
        }
    }

    // Gives the group up: the book as it was before the group. The bytes stay in place.
    pub fn strike(self) -> OpenBook
        ensures struck { result ≡ self.before }
        ensures holds { (t : List ℕ) (rs ms : List Row) → Owes t self rs ms → Holds t result rs }
    {
        let GroupUnderway {
            book: _,
            before: struck,
            due: _,
            first: _,
        } = self;
        struck
    }
}
