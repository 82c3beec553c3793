// Scripts, and what is displayed of their outcome: each step on a line, or the fault. Here those that have steps, and those with something that is no token.
pub struct Trial {
    pub script: &'static [u8],
    pub outcome: &'static str,
}

pub static LAWFUL: [Trial; 19] = [
    // an empty script has no steps
    Trial {
        script: b"",
        outcome: "",
    },
    // an empty line
    Trial {
        script: b"\n",
        outcome: "",
    },
    // lines of spaces alone are empty
    Trial {
        script: b"   \n  \n",
        outcome: "",
    },
    // the last newline may be missing
    Trial {
        script: b"(open byte8 24 2)",
        outcome: "(open byte8 24 2)\n",
    },
    Trial {
        script: b"(open byte8 24 2)\n",
        outcome: "(open byte8 24 2)\n",
    },
    // the most cells
    Trial {
        script: b"(open sixbit 4096 0)\n",
        outcome: "(open sixbit 4096 0)\n",
    },
    // the fewest cells; bins may be any number
    Trial {
        script: b"(open byte8 1 2147483647)",
        outcome: "(open byte8 1 2147483647)\n",
    },
    Trial {
        script: b"\n\n  (open byte8 24 2)  \n\n",
        outcome: "(open byte8 24 2)\n",
    },
    // spaces around brackets
    Trial {
        script: b"( open   byte8 24 2 )",
        outcome: "(open byte8 24 2)\n",
    },
    Trial {
        script: b"(open byte8 24 2)\n( null 1 )",
        outcome: "(open byte8 24 2)\n(null 1)\n",
    },
    // leading zeros count by value
    Trial {
        script: b"(open byte8 24 2)\n(null 007)",
        outcome: "(open byte8 24 2)\n(null 7)\n",
    },
    Trial {
        script: b"(open byte8 24 2)\n(number 1 -0)",
        outcome: "(open byte8 24 2)\n(number 1 0)\n",
    },
    // 32 signed bits
    Trial {
        script: b"(open byte8 24 2)\n(number 1 -2147483648)\n(number 2 2147483647)",
        outcome: "(open byte8 24 2)\n(number 1 -2147483648)\n(number 2 2147483647)\n",
    },
    Trial {
        script: b"(open byte8 24 2)\n(text 1 \"\")",
        outcome: "(open byte8 24 2)\n(text 1 \"\")\n",
    },
    // a text has bytes 32 to 126 without the quote
    Trial {
        script: b"(open byte8 24 2)\n(text 1 \" a (b) ~\")",
        outcome: "(open byte8 24 2)\n(text 1 \" a (b) ~\")\n",
    },
    // the thirteen calls
    Trial {
        script: b"(open byte8 24 2)\n(null 1)\n(number 2 -7)\n(copy 3 4)\n(make 4 2 20)\n(text 5 \"Alm\")\n(name 6 5 1)\n(fetch 7 6)\n(store 6 2)\n(divide 8 2 2)\n(kind 5)\n(read 5)\n(same 1 2)\n(collect 0)",
        outcome: "(open byte8 24 2)\n(null 1)\n(number 2 -7)\n(copy 3 4)\n(make 4 2 20)\n(text 5 \"Alm\")\n(name 6 5 1)\n(fetch 7 6)\n(store 6 2)\n(divide 8 2 2)\n(kind 5)\n(read 5)\n(same 1 2)\n(collect 0)\n",
    },
    // brackets need no space
    Trial {
        script: b"(open byte8 24 2)\n(times 2(null 1)(kind 2))",
        outcome: "(open byte8 24 2)\n(null 1)\n(kind 2)\n(null 1)\n(kind 2)\n",
    },
    // a times inside a times
    Trial {
        script: b"(open byte8 24 2)\n(times 2 (times 2 (read 3)) (same 1 2))",
        outcome: "(open byte8 24 2)\n(read 3)\n(read 3)\n(same 1 2)\n(read 3)\n(read 3)\n(same 1 2)\n",
    },
    // the least count
    Trial {
        script: b"(open byte8 24 2)\n(times 1 (null 1))",
        outcome: "(open byte8 24 2)\n(null 1)\n",
    },
];

pub static NO_TOKEN: [Trial; 23] = [
    Trial {
        script: b"#",
        outcome: "(no 18 reader 1 1)",
    },
    // a tab
    Trial {
        script: b"\t(open byte8 24 2)",
        outcome: "(no 18 reader 1 1)",
    },
    // a carriage return
    Trial {
        script: b"(open byte8 24 2)\r\n",
        outcome: "(no 18 reader 1 18)",
    },
    // a number beyond 32 signed bits
    Trial {
        script: b"(open byte8 2147483648 2)",
        outcome: "(no 18 reader 1 13)",
    },
    Trial {
        script: b"(open byte8 24 2)\n(number 1 -2147483649)",
        outcome: "(no 18 reader 2 11)",
    },
    Trial {
        script: b"(open byte8 24 2)\n(number 1 18446744073709551617)",
        outcome: "(no 18 reader 2 11)",
    },
    // also where a word should stand
    Trial {
        script: b"(open byte8 24 2)\n(99999999999 1)",
        outcome: "(no 18 reader 2 2)",
    },
    // an unclosed text
    Trial {
        script: b"(open byte8 24 2)\n(text 1 \"abc)",
        outcome: "(no 18 reader 2 9)",
    },
    // a text ends in its line
    Trial {
        script: b"(open byte8 24 2)\n(text 1 \"a\nb\")",
        outcome: "(no 18 reader 2 9)",
    },
    // a text ends before a space, a bracket or the line's end
    Trial {
        script: b"(open byte8 24 2)\n(text 1 \"a\"b)",
        outcome: "(no 18 reader 2 9)",
    },
    Trial {
        script: b"(open byte8 24 2)\n(text 1 \"a\"\"b\")",
        outcome: "(no 18 reader 2 9)",
    },
    // so does a number
    Trial {
        script: b"(open byte8 24 2)\n(text 1\"a\")",
        outcome: "(no 18 reader 2 7)",
    },
    Trial {
        script: b"(open byte8 24 2)\n(text 1 \"a\tb\")",
        outcome: "(no 18 reader 2 9)",
    },
    // byte 127
    Trial {
        script: b"(open byte8 24 2)\n(text 1 \"\x7f\")",
        outcome: "(no 18 reader 2 9)",
    },
    Trial {
        script: b"(open byte8 24 2)\n(text 1 \"\xc3\xa9\")",
        outcome: "(no 18 reader 2 9)",
    },
    Trial {
        script: b"(open byte8 24 2)\n(null 12a)",
        outcome: "(no 18 reader 2 7)",
    },
    Trial {
        script: b"(open byte8 24 2)\n(null -)",
        outcome: "(no 18 reader 2 7)",
    },
    Trial {
        script: b"(open byte8 24 2)\n(null 1-2)",
        outcome: "(no 18 reader 2 7)",
    },
    Trial {
        script: b"(open byte8 24 2)\n(null +1)",
        outcome: "(no 18 reader 2 7)",
    },
    // the tab is a part of what should be a word
    Trial {
        script: b"(open byte8 24 2)\n(null\t1)",
        outcome: "(no 18 reader 2 2)",
    },
    Trial {
        script: b"(open byte8 24 2)\n(te-xt 1 \"a\")",
        outcome: "(no 18 reader 2 2)",
    },
    // before a second form
    Trial {
        script: b"(open byte8 24 2)\n(null 1) \"x",
        outcome: "(no 18 reader 2 10)",
    },
    // the earliest place decides
    Trial {
        script: b"(open byte8 24 2)\n#\n(null)",
        outcome: "(no 18 reader 2 1)",
    },
];
