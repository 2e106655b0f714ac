// The calls. A lent buffer holds 7 everywhere before a call, and what it must hold afterwards is what the case has after
// = and then 7 again, in every element: it is `right` or `wrong` where the call is done, `kept` or `changed` where it
// refuses. Assumes nothing.
use cases::MOST_SPELLED;
use packed::FileAnswer;

pub fn unpack(case: &[u8]) {
    let mut file = [7; MOST_SPELLED];
    let file = cases::octets(cases::given(case), &mut file);
    let mut wanted = [7; MOST_SPELLED];
    cases::numbers(cases::wanted(case), &mut wanted);
    let mut words = [7; MOST_SPELLED];
    let answer = packed::unpack(file, cases::front_mut(&mut words, cases::room(case)));
    print_answer(answer, words == wanted);
}

pub fn pack(case: &[u8]) {
    let mut words = [7; MOST_SPELLED];
    let words = cases::numbers(cases::given(case), &mut words);
    let mut wanted = [7; MOST_SPELLED];
    cases::octets(cases::wanted(case), &mut wanted);
    let mut file = [7; MOST_SPELLED];
    let answer = packed::pack(words, cases::front_mut(&mut file, cases::room(case)));
    print_answer(answer, file == wanted);
    if let FileAnswer::Done(length) = answer {
        back(cases::front(&file, length), words);
    }
}

// Unpacks again what was packed, into as much room as the words had.
fn back(file: &[u8], words: &[u16]) {
    let mut again = [7; MOST_SPELLED];
    let again = cases::front_mut(&mut again, words.len());
    let answer = packed::unpack(file, again);
    print::text(b", back");
    print_answer(answer, &*again == words);
}

fn print_answer(answer: FileAnswer, as_wanted: bool) {
    match answer {
        FileAnswer::Done(length) => {
            print::done(length);
            if as_wanted {
                print::text(b" right");
            } else {
                print::text(b" wrong");
            }
        }
        FileAnswer::Refused { number, place } => {
            print::refused(number, place);
            print::kept(as_wanted);
        }
    }
}
