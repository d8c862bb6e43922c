//! What the library knows without a file of tables: the text of `tables/english.json`.

/// English numbers in full, short and long; dollars, euros, pounds and yen, in full and short;
/// percents, and the units percent and permille; ranges, and rules of ordinal numbers.
pub const ENGLISH: &str = "{
\"symbols\": [{\"locale\": \"en\", \"minus\": [\"-\", \"\"], \"plus\": [\"+\", \"\"], \"decimal\": \".\", \"group\": \",\", \"numsys\": \"latn\", \"sizes\": [3, 3, 1]},
 {\"locale\": \"en-US\", \"minus\": [\"-\", \"\"], \"plus\": [\"+\", \"\"], \"decimal\": \".\", \"group\": \",\", \"numsys\": \"latn\", \"sizes\": [3, 3, 1]}],
\"digits\": [[\"latn\", \"0123456789\"]],
\"rules\": [{\"locale\": \"en\", \"rules\": [[\"one\", \"i = 1 and v = 0\"]]},
 {\"locale\": \"en-US\", \"rules\": [[\"one\", \"i = 1 and v = 0\"]]}],
\"short\": [{\"locale\": \"en\", \"patterns\": [[3, 3, {\"other\": \"{0}K\"}], [6, 6, {\"other\": \"{0}M\"}], [9, 9, {\"other\": \"{0}B\"}], [12, 12, {\"other\": \"{0}T\"}]]},
 {\"locale\": \"en-US\", \"patterns\": [[3, 3, {\"other\": \"{0}K\"}], [6, 6, {\"other\": \"{0}M\"}], [9, 9, {\"other\": \"{0}B\"}], [12, 12, {\"other\": \"{0}T\"}]]}],
\"long\": [{\"locale\": \"en\", \"patterns\": [[3, 3, {\"other\": \"{0} thousand\"}], [6, 6, {\"other\": \"{0} million\"}], [9, 9, {\"other\": \"{0} billion\"}], [12, 12, {\"other\": \"{0} trillion\"}]]},
 {\"locale\": \"en-US\", \"patterns\": [[3, 3, {\"other\": \"{0} thousand\"}], [6, 6, {\"other\": \"{0} million\"}], [9, 9, {\"other\": \"{0} billion\"}], [12, 12, {\"other\": \"{0} trillion\"}]]}],
\"ordinals\": [{\"locale\": \"en\", \"rules\": [[\"one\", \"n % 10 = 1 and n % 100 != 11\"], [\"two\", \"n % 10 = 2 and n % 100 != 12\"], [\"few\", \"n % 10 = 3 and n % 100 != 13\"]]},
 {\"locale\": \"en-US\", \"rules\": [[\"one\", \"n % 10 = 1 and n % 100 != 11\"], [\"two\", \"n % 10 = 2 and n % 100 != 12\"], [\"few\", \"n % 10 = 3 and n % 100 != 13\"]]}],
\"currencies\": [{\"locale\": \"en\", \"standard\": \"¤#,##0.00\", \"accounting\": \"¤#,##0.00;(¤#,##0.00)\", \"minus\": \"-\", \"plus\": \"+\", \"names\": {\"other\": \"{0} {1}\"}},
 {\"locale\": \"en-US\", \"standard\": \"¤#,##0.00\", \"accounting\": \"¤#,##0.00;(¤#,##0.00)\", \"minus\": \"-\", \"plus\": \"+\", \"names\": {\"other\": \"{0} {1}\"}}],
\"currency_compact\": [{\"locale\": \"en\", \"patterns\": [[3, 3, {\"other\": \"¤0K\"}], [6, 6, {\"other\": \"¤0M\"}], [9, 9, {\"other\": \"¤0B\"}], [12, 12, {\"other\": \"¤0T\"}]]},
 {\"locale\": \"en-US\", \"patterns\": [[3, 3, {\"other\": \"¤0K\"}], [6, 6, {\"other\": \"¤0M\"}], [9, 9, {\"other\": \"¤0B\"}], [12, 12, {\"other\": \"¤0T\"}]]}],
\"currency_symbols\": [{\"locale\": \"en\", \"symbols\": [[\"USD\", \"$\", \"$\", {\"one\": \"US dollar\", \"other\": \"US dollars\"}], [\"EUR\", \"€\", \"€\", {\"one\": \"euro\", \"other\": \"euros\"}], [\"GBP\", \"£\", \"£\", {\"one\": \"British pound\", \"other\": \"British pounds\"}], [\"JPY\", \"¥\", \"¥\", {\"other\": \"Japanese yen\"}]]},
 {\"locale\": \"en-US\", \"symbols\": [[\"USD\", \"$\", \"$\", {\"one\": \"US dollar\", \"other\": \"US dollars\"}], [\"EUR\", \"€\", \"€\", {\"one\": \"euro\", \"other\": \"euros\"}], [\"GBP\", \"£\", \"£\", {\"one\": \"British pound\", \"other\": \"British pounds\"}], [\"JPY\", \"¥\", \"¥\", {\"other\": \"Japanese yen\"}]]}],
\"currency_digits\": [[\"DEFAULT\", 2, 2], [\"JPY\", 0, 0]],
\"percents\": [{\"locale\": \"en\", \"pattern\": \"#,##0%\", \"minus\": \"-\", \"plus\": \"+\", \"percent\": \"%\", \"permille\": \"‰\"},
 {\"locale\": \"en-US\", \"pattern\": \"#,##0%\", \"minus\": \"-\", \"plus\": \"+\", \"percent\": \"%\", \"permille\": \"‰\"}],
\"ranges\": [{\"locale\": \"en\", \"pattern\": \"{0}–{1}\", \"approximately\": \"~\"},
 {\"locale\": \"en-US\", \"pattern\": \"{0}–{1}\", \"approximately\": \"~\"}],
\"units\": [{\"locale\": \"en\", \"width\": \"long\", \"unit\": \"percent\", \"patterns\": {\"other\": \"{0} percent\"}}, {\"locale\": \"en\", \"width\": \"short\", \"unit\": \"percent\", \"patterns\": {\"other\": \"{0}%\"}}, {\"locale\": \"en\", \"width\": \"narrow\", \"unit\": \"percent\", \"patterns\": {\"other\": \"{0}%\"}}, {\"locale\": \"en\", \"width\": \"long\", \"unit\": \"permille\", \"patterns\": {\"other\": \"{0} permille\"}}, {\"locale\": \"en\", \"width\": \"short\", \"unit\": \"permille\", \"patterns\": {\"other\": \"{0}‰\"}}, {\"locale\": \"en\", \"width\": \"narrow\", \"unit\": \"permille\", \"patterns\": {\"other\": \"{0}‰\"}},
 {\"locale\": \"en-US\", \"width\": \"long\", \"unit\": \"percent\", \"patterns\": {\"other\": \"{0} percent\"}}, {\"locale\": \"en-US\", \"width\": \"short\", \"unit\": \"percent\", \"patterns\": {\"other\": \"{0}%\"}}, {\"locale\": \"en-US\", \"width\": \"narrow\", \"unit\": \"percent\", \"patterns\": {\"other\": \"{0}%\"}}, {\"locale\": \"en-US\", \"width\": \"long\", \"unit\": \"permille\", \"patterns\": {\"other\": \"{0} permille\"}}, {\"locale\": \"en-US\", \"width\": \"short\", \"unit\": \"permille\", \"patterns\": {\"other\": \"{0}‰\"}}, {\"locale\": \"en-US\", \"width\": \"narrow\", \"unit\": \"permille\", \"patterns\": {\"other\": \"{0}‰\"}}]
}
";
