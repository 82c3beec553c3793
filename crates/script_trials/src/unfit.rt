// Scripts with a token that does not fit, in the first form and later; and one with too many steps.
use crate::table::Trial;

pub static UNFIT_FIRST: [Trial; 20] = [
    // a line begins with a bracket
    Trial {
        script: b"null",
        outcome: "(no 19 reader 1 1)",
    },
    Trial {
        script: b")",
        outcome: "(no 19 reader 1 1)",
    },
    Trial {
        script: b"5",
        outcome: "(no 19 reader 1 1)",
    },
    Trial {
        script: b"\"a\"",
        outcome: "(no 19 reader 1 1)",
    },
    // behind it stands a word
    Trial {
        script: b"()",
        outcome: "(no 19 reader 1 2)",
    },
    Trial {
        script: b"((",
        outcome: "(no 19 reader 1 2)",
    },
    Trial {
        script: b"(5)",
        outcome: "(no 19 reader 1 2)",
    },
    Trial {
        script: b"(",
        outcome: "(no 19 reader 1 2)",
    },
    // the first form is open
    Trial {
        script: b"(null 1)",
        outcome: "(no 19 reader 1 2)",
    },
    Trial {
        script: b"(times 2 (null 1))",
        outcome: "(no 19 reader 1 2)",
    },
    // no cells
    Trial {
        script: b"(open byte8 0 2)",
        outcome: "(no 19 reader 1 13)",
    },
    // too many cells
    Trial {
        script: b"(open byte8 4097 2)",
        outcome: "(no 19 reader 1 13)",
    },
    Trial {
        script: b"(open byte9 24 2)",
        outcome: "(no 19 reader 1 7)",
    },
    Trial {
        script: b"(open 24 byte8 2)",
        outcome: "(no 19 reader 1 7)",
    },
    Trial {
        script: b"(open byte8 -1 2)",
        outcome: "(no 19 reader 1 13)",
    },
    // missing arguments stand at the closing bracket
    Trial {
        script: b"(open byte8 24)",
        outcome: "(no 19 reader 1 15)",
    },
    Trial {
        script: b"(open byte8 24 2 3)",
        outcome: "(no 19 reader 1 18)",
    },
    // an unfinished form stands at its line's end
    Trial {
        script: b"(open byte8 24 2",
        outcome: "(no 19 reader 1 17)",
    },
    Trial {
        script: b"(open byte8 24 2  \n)",
        outcome: "(no 19 reader 1 19)",
    },
    // a second form in a line
    Trial {
        script: b"(open byte8 24 2) (null 1)",
        outcome: "(no 19 reader 1 19)",
    },
];

pub static UNFIT_LATER: [Trial; 25] = [
    // a second open
    Trial {
        script: b"(open byte8 24 2)\n(open byte8 24 2)",
        outcome: "(no 19 reader 2 2)",
    },
    // an unknown word
    Trial {
        script: b"(open byte8 24 2)\n(nil 1)",
        outcome: "(no 19 reader 2 2)",
    },
    Trial {
        script: b"(open byte8 24 2)\n(Null 1)",
        outcome: "(no 19 reader 2 2)",
    },
    Trial {
        script: b"(open byte8 24 2)\n(byte8 1)",
        outcome: "(no 19 reader 2 2)",
    },
    Trial {
        script: b"(open byte8 24 2)\n(null)",
        outcome: "(no 19 reader 2 6)",
    },
    Trial {
        script: b"(open byte8 24 2)\n(null 1 2)",
        outcome: "(no 19 reader 2 9)",
    },
    Trial {
        script: b"(open byte8 24 2)\n(null 1",
        outcome: "(no 19 reader 2 8)",
    },
    Trial {
        script: b"(open byte8 24 2)\n(null 1) (null 2)",
        outcome: "(no 19 reader 2 10)",
    },
    // a minus only in number
    Trial {
        script: b"(open byte8 24 2)\n(null -1)",
        outcome: "(no 19 reader 2 7)",
    },
    Trial {
        script: b"(open byte8 24 2)\n(null -0)",
        outcome: "(no 19 reader 2 7)",
    },
    Trial {
        script: b"(open byte8 24 2)\n(number -1 5)",
        outcome: "(no 19 reader 2 9)",
    },
    Trial {
        script: b"(open byte8 24 2)\n(null \"a\")",
        outcome: "(no 19 reader 2 7)",
    },
    Trial {
        script: b"(open byte8 24 2)\n(text 1 a)",
        outcome: "(no 19 reader 2 9)",
    },
    Trial {
        script: b"(open byte8 24 2)\n(null (null 1))",
        outcome: "(no 19 reader 2 7)",
    },
    // a count out of its range
    Trial {
        script: b"(open byte8 24 2)\n(times 0 (null 1))",
        outcome: "(no 19 reader 2 8)",
    },
    Trial {
        script: b"(open byte8 24 2)\n(times 1001 (null 1))",
        outcome: "(no 19 reader 2 8)",
    },
    Trial {
        script: b"(open byte8 24 2)\n(times (null 1))",
        outcome: "(no 19 reader 2 8)",
    },
    // a times without a form
    Trial {
        script: b"(open byte8 24 2)\n(times 3)",
        outcome: "(no 19 reader 2 9)",
    },
    Trial {
        script: b"(open byte8 24 2)\n(times 2 null 1)",
        outcome: "(no 19 reader 2 10)",
    },
    // an open inside a times
    Trial {
        script: b"(open byte8 24 2)\n(times 2 (open byte8 24 2))",
        outcome: "(no 19 reader 2 11)",
    },
    Trial {
        script: b"(open byte8 24 2)\n(times 2 (null 1)",
        outcome: "(no 19 reader 2 18)",
    },
    Trial {
        script: b"(open byte8 24 2)\n(times 2 (null 1)) (null 1)",
        outcome: "(no 19 reader 2 20)",
    },
    // the earliest place decides
    Trial {
        script: b"(open byte8 24 2)\n(null)\n#",
        outcome: "(no 19 reader 2 6)",
    },
    // before too many steps
    Trial {
        script: b"(open byte8 24 2)\n(times 1000 (times 1000 (null 1)))\n(null)",
        outcome: "(no 19 reader 3 6)",
    },
    // too many steps
    Trial {
        script: b"(open byte8 24 2)\n(times 1000 (times 1000 (times 1000 (null 1))))",
        outcome: "(no 20 reader 0 0)",
    },
];
